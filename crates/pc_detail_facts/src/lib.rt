//! The facts that details are made from: the definitions, classes and types of a module, and what its calls call.
#![tactic(auto)]

mod ann_texts;
mod annotations;
mod called;
mod callees;
mod definitions;
mod facts;
mod known;
mod type_texts;

pub use annotations::{Annotations, option_ann};
pub use called::CallTarget;
pub use callees::callees_of;
pub use definitions::{Body, Definitions, OwnedExpr};
pub use facts::{Facts, fields_of_classes, members_of_type};
pub use known::Known;
