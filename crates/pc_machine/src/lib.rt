//! The run model, which defines the runs of a module, and the machine that carries out a plain run.
#![tactic(auto)]

mod calls;
mod depth;
mod globals;
mod halt;
mod laws;
mod look_up;
mod machine;
mod names;
mod perform;
mod state;

pub use depth::Depth;
pub use halt::{Halt, Stop};
pub use laws::plain_runs_are_runs;
pub use machine::{Machine, raised};
pub use state::{
    Bound, BuiltinMethod, Callee, Class, Completion, FormalParameter, Global, Globals,
    InstanceTest, Local, Meaning, NamedValue,
};
