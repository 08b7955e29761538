//! Classes: their fields and methods, those of their ancestors, and how methods override.
#![tactic(auto)]

mod adding;
mod bases;
mod building;
mod entries;
mod field_lists;
mod laws;
mod listed;
mod listing;
mod parts;
mod reading;
mod table;

pub use building::class_table;
pub use laws::{
    class_findings_are_exact, classes_are_well_formed, methods_are_judged_against_each_ancestor,
    methods_are_judged_once, names_are_found, overrides_are_found,
};
pub use listed::ParameterList;
pub use listing::Listing;
pub use pc_annotations::bases_stand_before;
pub use reading::read_param;
pub use table::{ClassTable, Method, Parameter};
