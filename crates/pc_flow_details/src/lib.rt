//! The wrong and the dynamic flows of a module, each with the place that its value flows into.
#![tactic(auto)]

mod argument_sinks;
mod expression_sinks;
mod locals;
mod sink;
mod sinks;
mod stores;
mod taken;

pub use sink::Sinks;
