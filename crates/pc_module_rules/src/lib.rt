//! The labelling of statements, functions, classes and modules: definitions and laws.
#![tactic(auto)]

mod flow_laws;
mod laws;
mod type_laws;

pub use flow_laws::{
    computed_flows_stand_under_labels, dynamic_flows_are_dynamic, dynamic_flows_are_found,
    dynamic_flows_stand_under_labels, first_flows_are_noted, wrong_flows_are_found,
    wrong_flows_are_wrong,
};
pub use laws::{
    every_module_has_a_labelling, every_module_has_exactly_one_labelling, findings_of_scopes,
    functions_have_labels, labels_agree_with_scopes, loops_may_take_no_turn,
    modules_find_what_labels_say, one_labelling, returned_values_flow, suites_have_labels,
    walks_say_what_labels_say,
};
pub use type_laws::{first_types_are_noted, names_are_noted, types_are_noted};
