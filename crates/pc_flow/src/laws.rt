//! Laws of environments, narrowing and loops.

ghost use Rattle.std.specs.Prelude.{◌≡◌, ℕ, length, List, Bool, true, false, Some};
ghost use Rattle.pc_types.specs.Tree.{Tree};
ghost use Rattle.pc_types.specs.Below.{Bases};
ghost use Rattle.pc_flow.specs.Agreement.{ConditionsKeepUntested, ConditionsKeepLocals, JoinsKeepAgreed};
ghost use Rattle.pc_flow.specs.Environment.{Env, current, declared_type, join_env, loop_head};
ghost use Rattle.pc_flow.specs.WellFormed.{PassingIsWellFormed, FailingIsWellFormed, AssignmentsKeepWellFormed};
ghost use Rattle.pc_flow.specs.WellFormed.{JoinsKeepWellFormed, ConditionsKeepWellFormed, LoopHeadsKeepWellFormed};

/// The law that a join of environments keeps the number of locals.
pub fn joins_keep_locals()
    ensures { (bases : Bases) (declared : List Tree) (a b : Env) → length a ≡ length declared
        → length b ≡ length declared → length (join_env bases declared a b) ≡ length declared }
{}

/// The law that the parts of a type that pass and fail a test are in normal form, without absorbed members and of at
/// most 256 nodes, if the type is.
pub fn tests_keep_types_well_formed()
    ensures passing { PassingIsWellFormed }
    ensures failing { FailingIsWellFormed }
{}

/// The law that assignments, joins, conditions and loop heads keep the types of an environment in normal form, without
/// absorbed members and of at most 256 nodes, if the declared types are.
pub fn environments_stay_well_formed()
    ensures assignment { AssignmentsKeepWellFormed }
    ensures join { JoinsKeepWellFormed }
    ensures condition { ConditionsKeepWellFormed }
    ensures loop_head { LoopHeadsKeepWellFormed }
{}

/// The law that at a loop head, an assigned local that the loop binds has its declared type, whatever it was narrowed
/// to before; any other local is unchanged.
pub fn loops_begin_with_declared_types()
    ensures bound { (bound : ℕ → Bool) (declared : List Tree) (env : Env) (x : ℕ) (t : Tree)
        → length env ≡ length declared → bound x ≡ true → current env x ≡ Some t
        → current (loop_head bound declared env) x ≡ Some (declared_type declared x) }
    ensures others { (bound : ℕ → Bool) (declared : List Tree) (env : Env) (x : ℕ) → length env ≡ length declared
        → bound x ≡ false → current (loop_head bound declared env) x ≡ current env x }
{}

/// The law that a condition leaves each local that it does not test unchanged, whether it is true or false, and keeps
/// the number of locals.
pub fn conditions_keep_untested_locals()
    ensures untested { ConditionsKeepUntested }
    ensures locals { ConditionsKeepLocals }
{}

/// The law that where two paths join, a local with the same current type on both keeps it.
pub fn joins_keep_agreed_locals()
    ensures { JoinsKeepAgreed }
{}
