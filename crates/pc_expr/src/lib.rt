//! The types of expressions, and the findings in them.
#![tactic(auto)]

mod call_labels;
mod calls;
mod conditions;
mod displays;
mod entries;
mod items;
mod range_typing;
mod typing;
mod whole;

pub use conditions::{Condition, type_condition};
pub use range_typing::{RangeCall, type_range};
pub use typing::check_expr;
