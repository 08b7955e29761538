//! Heads of loops, and the targets of `for`.

#![tactic(auto, using(crate::proofs::Walks::goes_further))]

ghost use Rattle.std.specs.Prelude.{◌≡◌, ◌∷◌, List, IfOk, OnOk, true};
ghost use Rattle.pc_tree.specs.Tree.{Name as NameOf, name_of, stmts_of_list};
ghost use Rattle.pc_tree.specs.Stopping.{bound_by};
ghost use Rattle.pc_flow.specs.Stored.{env_of};
ghost use Rattle.pc_module_rules.specs.Computed.Statements.{head_at, bind_item, with_note};
ghost use Rattle.pc_walk.specs.Touched.{numbers_of};
ghost use Rattle.pc_walk.specs.Walks.{IsValidIn, HoldsOne, HoldsEnv, IsEnv, IsQuiet, WalkKept, BindsName};
ghost use Rattle.pc_walk.specs.Walks.{body_context_in};
ghost use Rattle.pc_flow.specs.Naming.{meanings};

use crate::binding::{bind_label, known_type, note_binding};
use crate::envs::head_in;
use crate::locals::numbers_of_locals;
use crate::walk::Walk;
use pc_flow::Env;
use pc_rules::Label;
use pc_scope::NameMeaning;
use pc_source::{OutOfMemory, Place};
use pc_tree::{Name, Stmt, add_bound};
use pc_types::TypeStore;

/// Returns the environment at the head of a loop that binds these locals, given the one before the loop: each of them
/// that is assigned has its declared type there. Own rule of the profile.
fn loop_start<S: TypeStore>(
    walk: &mut Walk<'_, S>,
    env: &Env<S::Ty>,
    locals: &[usize],
) -> Result<Env<S::Ty>, OutOfMemory>
    requires declared { HoldsEnv S.TypeStore walk.old walk.old.declared.now }
    requires env { HoldsEnv S.TypeStore walk.old env.now }
    ensures head { (names : List NameOf) → locals.now ≡ numbers_of (meanings walk.old.context.names.now) names
        → IfOk result (λ e. IsEnv S.TypeStore walk.new e (head_at (body_context_in S.TypeStore walk.old)
        (env_of S.tree walk.old.declared.now) names (env_of S.tree env.now))) }
    ensures quiet { OnOk result (IsQuiet S.TypeStore walk.old walk.new) }
    ensures goes_on { WalkKept S.TypeStore walk.old walk.new }
{
    let head = head_in(walk, locals, env)?;
    Ok(head)
}

/// Returns the environment at the head of a `while`, given the one before it: each assigned local that the body binds
/// has its declared type there.
pub fn while_start<S: TypeStore>(
    walk: &mut Walk<'_, S>,
    env: &Env<S::Ty>,
    body: &[Stmt],
) -> Result<Env<S::Ty>, OutOfMemory>
    requires declared { HoldsEnv S.TypeStore walk.old walk.old.declared.now }
    requires env { HoldsEnv S.TypeStore walk.old env.now }
    ensures head { IfOk result (λ e. IsEnv S.TypeStore walk.new e (head_at (body_context_in S.TypeStore walk.old)
        (env_of S.tree walk.old.declared.now) (bound_by (stmts_of_list body.now)) (env_of S.tree env.now))) }
    ensures quiet { OnOk result (IsQuiet S.TypeStore walk.old walk.new) }
    ensures goes_on { WalkKept S.TypeStore walk.old walk.new }
{
    let mut bound = Vec::new(walk.alloc);
    add_bound(&mut bound, body)?;
    let locals = numbers_of_locals(walk.alloc, walk.context.names, &bound)?;
    let head = loop_start(walk, env, &locals)?;
    Ok(head)
}

/// Returns the environment at the head of a `for`, given the one before it: each assigned local that the loop binds, in
/// its body or as its target, has its declared type there.
pub fn for_start<S: TypeStore>(
    walk: &mut Walk<'_, S>,
    env: &Env<S::Ty>,
    target: &Name,
    body: &[Stmt],
) -> Result<Env<S::Ty>, OutOfMemory>
    requires declared { HoldsEnv S.TypeStore walk.old walk.old.declared.now }
    requires env { HoldsEnv S.TypeStore walk.old env.now }
    ensures head { IfOk result (λ e. IsEnv S.TypeStore walk.new e (head_at (body_context_in S.TypeStore walk.old)
        (env_of S.tree walk.old.declared.now) (name_of target.now ∷ bound_by (stmts_of_list body.now))
        (env_of S.tree env.now))) }
    ensures quiet { OnOk result (IsQuiet S.TypeStore walk.old walk.new) }
    ensures goes_on { WalkKept S.TypeStore walk.old walk.new }
{
    let mut bound = Vec::new(walk.alloc);
    bound.push(target)?;
    add_bound(&mut bound, body)?;
    let locals = numbers_of_locals(walk.alloc, walk.context.names, &bound)?;
    let head = loop_start(walk, env, &locals)?;
    Ok(head)
}

/// Binds the name that a `for` has as its target, with this meaning, to an item of this type, in the environment at the
/// head, and returns the environment at the start of the body. A name that means no local binds nothing. Appends the
/// finding of the flow at `place`, if there is one.
fn bind_target<S: TypeStore>(
    walk: &mut Walk<'_, S>,
    head: Env<S::Ty>,
    meaning: NameMeaning,
    place: Place,
    item: S::Ty,
) -> Result<Env<S::Ty>, OutOfMemory>
    requires stands { IsValidIn S.TypeStore walk.old head }
    requires item { HoldsOne S.TypeStore walk.old item }
    ensures bound { IfOk result (λ b. BindsName S.TypeStore walk.old head walk.new b
        (λ f t k. bind_item f t k meaning place (S.tree item))) }
    ensures goes_on { WalkKept S.TypeStore walk.old walk.new }
{
    match meaning {
        NameMeaning::Local(local) => {
            let want = known_type(walk.store, walk.alloc, walk.declared, local, None)?;
            let label = Label {
                ty: item,
                codes: Vec::new(walk.alloc),
            };
            let inside = bind_label(walk, head, local, want, place, &label)?;
            Ok(inside)
        }
        _ => Ok(head),
    }
}

/// Binds the target of a `for` to an item of this type, in the environment at the head, and returns the environment at
/// the start of the body. A name that means no local binds nothing. Appends the finding of the flow at `place`, if
/// there is one, and if types are kept, the name with its types.
pub fn bind_item<S: TypeStore>(
    walk: &mut Walk<'_, S>,
    head: Env<S::Ty>,
    target: &Name,
    place: Place,
    item: S::Ty,
) -> Result<Env<S::Ty>, OutOfMemory>
    requires stands { IsValidIn S.TypeStore walk.old head }
    requires item { HoldsOne S.TypeStore walk.old item }
    ensures bound { IfOk result (λ b. BindsName S.TypeStore walk.old head walk.new b
        (λ f t k found. with_note f true (f.context.resolve (name_of target.now).text) target.now.place
        (bind_item f t k (f.context.resolve (name_of target.now).text) place (S.tree item) found))) }
    ensures goes_on { WalkKept S.TypeStore walk.old walk.new }
{
    let meaning = walk.context.names.resolve(target.text.as_str());
    let inside = bind_target(walk, head, meaning, place, item)?;
    note_binding(walk, &inside, meaning, target.place, true)?;
    Ok(inside)
}
