//! Annotations read as types, with their findings; the bases of classes; types written as text.
#![tactic(auto)]

mod built;
mod laws;
mod marks;
mod names;
mod ordered;
mod outline;
mod parents;
mod reading;
mod text;
mod union;
mod whole;

pub use laws::{annotations_are_well_formed, bases_stand_before, findings_are_listed};
pub use names::ClassNames;
pub use outline::ModuleOutline;
pub use parents::parents_of;
pub use text::{named_text, type_text};
pub use whole::{read_ann, read_option};
