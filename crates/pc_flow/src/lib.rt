//! Environments: the assigned locals and their types at each point of a function.
#![tactic(auto)]

mod alike;
mod assigning;
mod chunk;
mod copying;
mod declarations;
mod declared;
mod env;
mod heading;
mod joining;
mod joining_onto;
mod junctions;
mod laws;
mod locals;
mod naming;
mod narrowing;
mod tested;
mod testing;

pub use alike::is_same_type;
pub use assigning::assigned_type;
pub use copying::copy_env;
pub use declarations::Declarations;
pub use declared::DeclaredTypes;
pub use env::Env;
pub use heading::loop_head;
pub use joining::{join_env, join_or_object};
pub use joining_onto::{EnvJoin, join_env_onto};
pub use junctions::{Connective, Junction, narrow_junction};
pub use laws::{
    conditions_keep_untested_locals, environments_stay_well_formed, joins_keep_agreed_locals,
    joins_keep_locals, loops_begin_with_declared_types, tests_keep_types_well_formed,
};
pub use naming::{OwnerNames, local_named, test_of};
pub use narrowing::{BothWays, narrow_false, narrow_simple, narrow_true};
pub use tested::add_tested;
pub use testing::Test;
