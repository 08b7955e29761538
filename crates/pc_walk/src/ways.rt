//! Joins of environments: at the exits of loops, and at the ends of branches.

#![tactic(auto, using(crate::proofs::Walks::goes_further))]

ghost use Rattle.std.specs.Prelude.{◌≡◌, ◌++◌, ℕ, IfOk, OnOk, Some, true};
ghost use Rattle.std.specs.Option.{option_map};
ghost use Rattle.pc_flow.specs.Agreement.{is_among};
ghost use Rattle.pc_flow.specs.Environment.{Env as EnvOf};
ghost use Rattle.pc_flow.specs.Stored.{env_of};
ghost use Rattle.pc_module_rules.specs.Computed.Statements.{join_onto_way, with_way};
ghost use Rattle.pc_walk.specs.Untouched.{WayTakesIn, AgreesIfAny, TakesInIfAny, AreNoted};
ghost use Rattle.pc_walk.specs.Touched.{touched_by_stmt};
ghost use Rattle.pc_flow.specs.Naming.{meanings};
ghost use Rattle.pc_source.specs.declared.place.Place.{Place as PlaceOf};
ghost use Rattle.pc_tree.specs.Tree.{stmt_of_kind};
ghost use Rattle.pc_rules.specs.Computed.ModuleParents.{class_parents};
ghost use Rattle.pc_walk.specs.Walks.{HoldsEnv, HoldsWay, IsWay, IsQuiet, WalkKept};

use crate::envs::join_at_locals;
use crate::touched::{add_touched, each_once};
use crate::walk::Walk;
use pc_flow::Env;
use pc_source::OutOfMemory;
use pc_tree::StmtKind;
use pc_types::TypeStore;

/// Joins `env`, the environment at a `break`, into `exit_env`, the exit environment of its loop, if there is a loop.
/// Only the locals in `unsettled` are joined; elsewhere `exit_env` must already subsume `env`. Leaves in `unsettled`
/// the locals where a second join could still change something. Language Reference 7.9 "The break statement".
pub fn break_out<S: TypeStore>(
    walk: &mut Walk<'_, S>,
    unsettled: &mut Vec<usize>,
    env: &Env<S::Ty>,
    exit_env: &mut Option<Env<S::Ty>>,
) -> Result<(), OutOfMemory>
    requires declared { HoldsEnv S.TypeStore walk.old walk.old.declared.now }
    requires env { HoldsEnv S.TypeStore walk.old env.now }
    requires exit_env { HoldsWay S.TypeStore walk.old exit_env.old }
    requires taken_in { WayTakesIn (class_parents walk.old.context.globals.now) unsettled.old.items
        (option_map (env_of S.tree) exit_env.old) (Some (env_of S.tree env.now)) }
    ensures joined { OnOk result (IsWay S.TypeStore walk.new exit_env.new
        (join_onto_way (class_parents walk.old.context.globals.now)
        (env_of S.tree walk.old.declared.now) (option_map (env_of S.tree) exit_env.old) (env_of S.tree env.now))) }
    ensures settled { OnOk result (WayTakesIn (class_parents walk.old.context.globals.now) unsettled.new.items
        (option_map (env_of S.tree) exit_env.new) (Some (env_of S.tree env.now))) }
    ensures quiet { OnOk result (IsQuiet S.TypeStore walk.old walk.new) }
    ensures goes_on { WalkKept S.TypeStore walk.old walk.new }
{
    match exit_env.take() {
        None => Ok(()),
        Some(way) => {
            each_once(unsettled);
            let joined = join_at_locals(walk, unsettled, way, env)?;
            *exit_env = Some(joined.env);
            *unsettled = joined.unsettled;
            Ok(())
        }
    }
}

/// Appends touched locals to `unsettled` if there is an exit environment of a loop: a `break` must join them from now
/// on. Own rule of the profile.
pub fn note_locals<Ty: Drop>(
    exit_env: &Option<Env<Ty>>,
    touched: &[usize],
    unsettled: &mut Vec<usize>,
) -> Result<(), OutOfMemory>
    ensures { OnOk result (AreNoted exit_env.now unsettled.old.items touched.now unsettled.new.items) }
{
    match exit_env {
        None => Ok(()),
        Some(_) => {
            unsettled.extend_from_slice(touched)?;
            Ok(())
        }
    }
}

/// Appends the locals that a statement touches to `unsettled` if there is an exit environment of a loop: a `break` must
/// join them from now on. Own rule of the profile.
pub fn note_touched<S: TypeStore>(
    walk: &Walk<'_, S>,
    exit_env: &Option<Env<S::Ty>>,
    kind: &StmtKind,
    unsettled: &mut Vec<usize>,
) -> Result<(), OutOfMemory>
    ensures { (p : PlaceOf) → OnOk result (AreNoted exit_env.now unsettled.old.items
        (touched_by_stmt (meanings walk.now.context.names.now) (stmt_of_kind p kind.now)) unsettled.new.items) }
{
    match exit_env {
        None => Ok(()),
        Some(_) => add_touched(walk.alloc, walk.context.names, kind, unsettled),
    }
}

/// The joined environments at the ends of the suites of an `if` so far.
#[derive(Drop)]
pub struct IfExits<Ty: Drop> {
    /// Their join; `None` if none of the suites can complete.
    pub met: Option<Env<Ty>>,
    /// The locals where joining the environment before the next suite could still change something.
    pub unsettled: Vec<usize>,
}

/// Joins `out`, the environment at the end of a suite that touches these locals, into `ways`, the joined ends of the
/// suites before it, and returns the join; `out` is `None` if the suite cannot complete. Only the touched and the
/// unsettled locals are joined; elsewhere the suites before must already subsume `out`. Touched locals stay unsettled.
pub fn join_exit<S: TypeStore>(
    walk: &mut Walk<'_, S>,
    ways: IfExits<S::Ty>,
    touched: Vec<usize>,
    out: Option<Env<S::Ty>>,
) -> Result<IfExits<S::Ty>, OutOfMemory>
    requires declared { HoldsEnv S.TypeStore walk.old walk.old.declared.now }
    requires ways { HoldsWay S.TypeStore walk.old ways.met }
    requires out { HoldsWay S.TypeStore walk.old out }
    requires taken_in { WayTakesIn (class_parents walk.old.context.globals.now)
        (ways.unsettled.items ++ touched.items)
        (option_map (env_of S.tree) ways.met) (option_map (env_of S.tree) out) }
    ensures joined { IfOk result (λ w. IsWay S.TypeStore walk.new w.met
        (with_way (class_parents walk.old.context.globals.now)
        (env_of S.tree walk.old.declared.now) (option_map (env_of S.tree) ways.met)
        (option_map (env_of S.tree) out))) }
    ensures settled { (base : EnvOf) → AgreesIfAny touched.items base (option_map (env_of S.tree) out)
        → TakesInIfAny (class_parents walk.old.context.globals.now) ways.unsettled.items
        (option_map (env_of S.tree) ways.met) base
        → IfOk result (λ w. TakesInIfAny (class_parents walk.old.context.globals.now) w.unsettled.items
        (option_map (env_of S.tree) w.met) base) }
    ensures touched { (x : ℕ) → is_among touched.items x ≡ true
        → IfOk result (λ w. is_among w.unsettled.items x ≡ true) }
    ensures quiet { OnOk result (IsQuiet S.TypeStore walk.old walk.new) }
    ensures goes_on { WalkKept S.TypeStore walk.old walk.new }
{
    let IfExits { met, unsettled } = ways;
    match out {
        None => {
            let mut all = unsettled;
            all.extend_from_slice(&touched)?;
            Ok(IfExits {
                met,
                unsettled: all,
            })
        }
        Some(out) => match met {
            None => Ok(IfExits {
                met: Some(out),
                unsettled: touched,
            }),
            Some(way) => {
                let mut locals = unsettled;
                locals.extend_from_slice(&touched)?;
                each_once(&mut locals);
                let joined = join_at_locals(walk, &locals, way, &out)?;
                let mut all = touched;
                all.extend_from_slice(&joined.unsettled)?;
                Ok(IfExits {
                    met: Some(joined.env),
                    unsettled: all,
                })
            }
        },
    }
}
