//! The law of locals that statements do not touch.

ghost use Rattle.pc_walk.specs.Untouched.{SuitesKeepUntouchedLocals};

/// The law that a walk over a suite leaves each local that the suite does not touch unchanged, both after the suite and
/// in the exit environment of the enclosing loop.
pub fn suites_keep_untouched_locals()
    ensures { SuitesKeepUntouchedLocals }
{}
