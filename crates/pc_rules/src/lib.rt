//! The rules of expressions and their laws; labels, names as values, and flows into types.
#![tactic(auto)]

mod expr_context;
mod flows;
mod label;
mod laws;
mod naming;
mod typing_state;

pub use expr_context::{ExprContext, ModuleContext, Signature};
pub use flows::{find_flow, find_flows};
pub use label::{
    Label, Offer, add_found, clean, find_codes, in_error, is_early, note_label, note_name,
};
pub use laws::{
    contexts_are_well_formed, expressions_have_labels, findings_are_listed, labels_are_lawful,
    list_tests_are_dynamic_places, one_labelling_of_expressions,
};
pub use naming::name_label;
pub use typing_state::TypingState;
