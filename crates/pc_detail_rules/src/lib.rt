//! The definitions of the details of findings, and the laws about them.
#![tactic(auto)]

mod laws;

pub use laws::{
    annotations_are_read_off_notes, clashes_are_exact, details_are_read_off_notes,
    dynamic_details_are_flows, every_finding_is_explained, every_finding_of_texts_is_explained,
    lacking_is_exact, method_misfits_are_exact, misfits_are_exact, name_misfits_are_exact,
    notes_tell_what_is_known, override_faults_are_exact, overrides_are_explained,
    texts_have_own_places, value_misfits_are_exact, wrong_calls_have_misfits,
    wrong_calls_of_texts_have_misfits, wrong_details_are_wrong,
};
