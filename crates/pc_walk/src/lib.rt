//! The context of a function's statements, and the steps of the walk over them that type no expression.
#![tactic(auto)]

mod binding;
mod context;
mod envs;
mod flows;
mod laws;
mod locals;
mod loops;
mod touched;
mod unreached;
mod walk;
mod ways;

pub use binding::{annotated_type, bind_label, declare_alone, known_type, note_binding};
pub use context::BodyContext;
pub use flows::{find_flow_in, find_flows_in};
pub use laws::suites_keep_untouched_locals;
pub use loops::{bind_item, for_start, while_start};
pub use touched::{touched_by_for, touched_by_if, touched_by_while};
pub use unreached::declare_unreached;
pub use walk::Walk;
pub use ways::{IfExits, break_out, join_exit, note_locals, note_touched};
