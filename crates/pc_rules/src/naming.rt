//! Names as values.
#![tactic(auto, using(crate::proofs::NamesRead::by_name))]

ghost use Rattle.std.specs.Prelude.{All, IfOk, map, slice_get};
ghost use Rattle.pc_tree.specs.Text.{text_bytes};
ghost use Rattle.pc_types.specs.Store.{KeepsTypes};
ghost use Rattle.pc_flow.specs.Environment.{current};
ghost use Rattle.pc_flow.specs.Stored.{HasEach, env_of};
ghost use Rattle.pc_rules.specs.Context.{local_label, constant_label, name_label};
ghost use Rattle.pc_rules.specs.Computed.Standing.{context_with, HasGivenAll, MeansLabel};
ghost use Rattle.pc_flow.specs.Naming.{meanings};

use crate::expr_context::ExprContext;
use crate::label::{Label, clean, in_error};
use pc_flow::Env;
use pc_scope::NameMeaning;
use pc_source::OutOfMemory;
use pc_tree::{Code, Name};
use pc_types::TypeStore;
use std::alloc::Global;

/// Returns the label of a local: its current type, or E04 if it is not assigned.
fn local_label<S: TypeStore>(
    store: &mut S,
    alloc: Global,
    env: &Env<S::Ty>,
    local: usize,
) -> Result<Label<S::Ty>, OutOfMemory>
    requires { HasEach (S.has store.old) env.now }
    ensures value { IfOk result
        (λ l. MeansLabel S.has S.tree store.new l (local_label (current (env_of S.tree env.now) local))) }
    ensures kept { KeepsTypes S.has store.old store.new }
{
    match env.current(local) {
        Some(ty) => Ok(clean(alloc, store.copy(alloc, ty)?)),
        None => in_error(store, alloc, Code::E04),
    }
}

/// Returns the label of a constant: its type, or E03 if it is not known yet.
fn constant_label<S: TypeStore>(
    store: &mut S,
    alloc: Global,
    constants: &[S::Ty],
    number: usize,
) -> Result<Label<S::Ty>, OutOfMemory>
    requires { All (S.has store.old) constants.now }
    ensures value { IfOk result
        (λ l. MeansLabel S.has S.tree store.new l (constant_label (slice_get (map S.tree constants.now) number))) }
    ensures kept { KeepsTypes S.has store.old store.new }
{
    match constants.get(number) {
        Some(ty) => Ok(clean(alloc, store.copy(alloc, ty)?)),
        None => in_error(store, alloc, Code::E03),
    }
}

/// Returns the label of a name used as a value: E20 for a function, a class or a reserved name, E03 for one that an
/// initializer may not use yet, E02 for an unknown name. Language Reference 4.2.2 "Resolution of names"; own rules of
/// the profile.
pub fn name_label<S: TypeStore>(
    store: &mut S,
    alloc: Global,
    context: &ExprContext<'_, S::Ty>,
    env: &Env<S::Ty>,
    name: &Name,
) -> Result<Label<S::Ty>, OutOfMemory>
    requires { HasGivenAll (S.has store.old) S.tree context.now env.now }
    ensures value { IfOk result
        (λ l. MeansLabel S.has S.tree store.new l
        (name_label (context_with S.tree context.now) (env_of S.tree env.now)
        (meanings context.now.names.now (text_bytes name.now.text)))) }
    ensures kept { KeepsTypes S.has store.old store.new }
{
    match context.names.resolve(name.text.as_str()) {
        NameMeaning::Local(local) => local_label(store, alloc, env, local),
        NameMeaning::Const(number) => constant_label(
            store,
            alloc,
            context.globals.constants,
            number,
        ),
        NameMeaning::Func(_) => {
            let code = if context.in_body {
                Code::E20
            } else {
                Code::E03
            };
            in_error(store, alloc, code)
        }
        NameMeaning::Class(class) => {
            let code = if class < context.globals.known {
                Code::E20
            } else {
                Code::E03
            };
            in_error(store, alloc, code)
        }
        NameMeaning::Builtin(_) => in_error(store, alloc, Code::E20),
        NameMeaning::None => in_error(store, alloc, Code::E02),
    }
}
