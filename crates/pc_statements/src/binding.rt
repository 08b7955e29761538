//! Names bound to the values of expressions, with or without an annotation.

#![tactic(auto, using(pc_walk::proofs::Walks::goes_further))]

ghost use Rattle.std.specs.Prelude.{IfOk};
ghost use Rattle.std.specs.Option.{option_map};
ghost use Rattle.pc_tree.specs.Tree.{expr_of, ann_of, name_of, option_expr_of};
ghost use Rattle.pc_module_rules.specs.Computed.Statements.{bind_value, bind_annotated, annotated_binding};
ghost use Rattle.pc_walk.specs.Walks.{IsValidIn, HoldsWant, WalkKept, BindsName};

use crate::typing::type_in;
use pc_flow::Env;
use pc_scope::NameMeaning;
use pc_source::OutOfMemory;
use pc_tree::{Ann, Expr, Name};
use pc_types::TypeStore;
use pc_walk::{Walk, annotated_type, bind_label, declare_alone, known_type, note_binding};

/// Types a value and binds a name to it. Appends the findings and returns the environment after it, unchanged if the
/// name means no local.
pub(crate) fn bind_value<S: TypeStore>(
    walk: &mut Walk<'_, S>,
    env: Env<S::Ty>,
    meaning: NameMeaning,
    annotation: Option<S::Ty>,
    e: &Expr,
) -> Result<Env<S::Ty>, OutOfMemory>
    requires stands { IsValidIn S.TypeStore walk.old env }
    requires annotation { HoldsWant S.TypeStore walk.old annotation }
    ensures bound { IfOk result (λ b. BindsName S.TypeStore walk.old env walk.new b
        (λ f t k. bind_value f t k meaning (option_map S.tree annotation) (expr_of e.now))) }
    ensures goes_on { WalkKept S.TypeStore walk.old walk.new }
{
    match meaning {
        NameMeaning::Local(local) => {
            let want = known_type(walk.store, walk.alloc, walk.declared, local, annotation)?;
            let label = type_in(walk, &env, &want, e)?;
            let behind = bind_label(walk, env, local, want, e.place(), &label)?;
            Ok(behind)
        }
        _ => {
            type_in(walk, &env, &None, e)?;
            Ok(env)
        }
    }
}

/// Declares an annotated name with this meaning and, if there is a value, binds it. Appends the findings and returns
/// the environment after it.
fn bind_read<S: TypeStore>(
    walk: &mut Walk<'_, S>,
    env: Env<S::Ty>,
    meaning: NameMeaning,
    name: &Name,
    annotation: &Ann,
    value: &Option<Box<Expr>>,
) -> Result<Env<S::Ty>, OutOfMemory>
    requires { IsValidIn S.TypeStore walk.old env }
    ensures bound { IfOk result (λ b. BindsName S.TypeStore walk.old env walk.new b
        (λ f t k. annotated_binding f t k meaning (name_of name.now) (ann_of annotation.now)
        (option_expr_of value.now))) }
    ensures goes_on { WalkKept S.TypeStore walk.old walk.new }
{
    let ty = annotated_type(walk, meaning, name, annotation)?;
    match value {
        None => {
            declare_alone(walk.declared, meaning, ty);
            Ok(env)
        }
        Some(e) => {
            let behind = bind_value(walk, env, meaning, ty, e)?;
            Ok(behind)
        }
    }
}

/// Declares an annotated name and, if there is a value, binds it. Appends the findings, and if types are kept, the name
/// with its types, and returns the environment after it.
///
/// Language Reference 7.2.2 "Annotated assignment statements"; that a name already bound keeps its declared type is an
/// own rule of the profile.
pub fn bind_annotated<S: TypeStore>(
    walk: &mut Walk<'_, S>,
    env: Env<S::Ty>,
    name: &Name,
    annotation: &Ann,
    value: &Option<Box<Expr>>,
) -> Result<Env<S::Ty>, OutOfMemory>
    requires { IsValidIn S.TypeStore walk.old env }
    ensures bound { IfOk result (λ b. BindsName S.TypeStore walk.old env walk.new b
        (λ f t k. bind_annotated f t k (name_of name.now) (ann_of annotation.now) (option_expr_of value.now))) }
    ensures goes_on { WalkKept S.TypeStore walk.old walk.new }
{
    let meaning = walk.context.names.resolve(name.text.as_str());
    let behind = bind_read(walk, env, meaning, name, annotation, value)?;
    note_binding(walk, &behind, meaning, name.place, value.is_some())?;
    Ok(behind)
}
