//! Laws of types, as contracts of functions that do nothing.

ghost use Rattle.pc_types.specs.Computed.{StaticIsDecided, AssignableIsDecided};
ghost use Rattle.pc_types.specs.WellFormed.{JoinsAreWellFormed};

/// The law that the join of two types in normal form without absorbed members, if it exists, is in normal form, has no
/// absorbed member and has at most 256 nodes.
pub fn joins_are_well_formed()
    ensures { JoinsAreWellFormed }
{}

/// The law that on types in normal form, the tests decide static subtyping, which reads `Any` as `object`, and
/// consistent subtyping.
pub fn subtyping_is_decided()
    ensures static_test { StaticIsDecided }
    ensures assignable_test { AssignableIsDecided }
{}
