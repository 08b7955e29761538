//! Values of a type, well-typed heaps, and the guarantees that the findings of a module give about its runs.
#![tactic(auto)]

mod alias_example;
mod assignment_example;
mod border_example;
mod dispatch_example;
mod laws;
mod loop_example;
mod narrowing_example;
mod order_example;
mod outside_laws;

pub use alias_example::example_of_aliases;
pub use assignment_example::example_of_assignment;
pub use border_example::example_of_a_border;
pub use dispatch_example::example_of_dispatch;
pub use laws::{
    aliases_keep_heaps, annotations_have_no_never, dynamic_flows_are_needed, joins_keep_values,
    narrowing_keeps_values, soundness, soundness_beside_errors, values_flow_statically,
};
pub use loop_example::example_of_loops;
pub use narrowing_example::example_of_narrowing;
pub use order_example::example_of_order;
pub use outside_laws::{
    call_sequences_are_sound, calls_from_outside_are_sound, fitting_is_right, loading_is_sound,
};
