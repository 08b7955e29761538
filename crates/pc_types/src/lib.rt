//! Types: their form, static and consistent subtyping, and joins.
#![tactic(auto)]

mod adding;
mod boxed;
mod compare;
mod flow;
mod head;
mod join;
mod laws;
mod parents;
mod shape;
mod store;

pub use boxed::{BoxStore, BoxType};
pub use compare::is_same;
pub use head::Head;
pub use laws::{joins_are_well_formed, subtyping_is_decided};
pub use parents::Parents;
pub use store::TypeStore;
