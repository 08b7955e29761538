//! The check of the body of a function, from its entry.

#![tactic(auto, using(pc_walk::proofs::Walks::goes_further))]

ghost use Rattle.std.specs.Prelude.{◌≡◌, ◌++◌, All, None, map, length, replicate, OnOk};
ghost use Rattle.std.specs.Option.{option_map};
ghost use Rattle.pc_tree.specs.Tree.{module_of, func_of};
ghost use Rattle.pc_scope.specs.Resolution.{locals};
ghost use Rattle.pc_class.specs.Tables.{HasParameter, parameters_with};
ghost use Rattle.pc_class.specs.Facts.{parameters_of};
ghost use Rattle.pc_flow.specs.Stored.{env_of};
ghost use Rattle.pc_notes.specs.Notes.{notes_of};
ghost use Rattle.pc_rules.specs.Computed.TypingStates.{StateKept as StateKeptAfter};
ghost use Rattle.pc_rules.specs.Computed.ModuleParents.{class_parents};
ghost use Rattle.pc_module_rules.specs.Modules.{receiver_parameter};
ghost use Rattle.pc_module_rules.specs.Computed.Statements.{body_context_of, function_finds, enter_parameters};
ghost use Rattle.pc_module_rules.specs.Computed.Statements.{enter_name};
ghost use Rattle.pc_module_rules.specs.Computed.Statements.{end_finds};
ghost use Rattle.pc_walk.specs.StatementsHeld.{body_context_with, HoldsContext};
ghost use Rattle.pc_walk.specs.Walks.{IsValidIn, HoldsOne, WalkKept, BindsName, body_context_in};
ghost use Rattle.pc_check.specs.Internal.Entry.{HoldsParameters, entered};

use crate::statements::{LoopExit, check_suite};
use pc_class::Parameter;
use pc_flow::{DeclaredTypes, Env};
use pc_rules::TypingState;
use pc_scope::{NameMeaning, Owner};
use pc_source::{OutOfMemory, Place};
use pc_tree::{Code, FuncDef};
use pc_types::TypeStore;
use pc_walk::{BodyContext, Walk};

/// Gives the local that `name` means the declared type `ty`, and makes `ty` its current type in `env`. Does nothing if
/// `name` means no local, or a local that already has a declared type.
fn enter_name<S: TypeStore>(
    walk: &mut Walk<'_, S>,
    env: &mut Env<S::Ty>,
    name: &str,
    ty: &S::Ty,
) -> Result<(), OutOfMemory>
    requires stands { IsValidIn S.TypeStore walk.old env.old }
    requires ty { HoldsOne S.TypeStore walk.old ty.now }
    ensures bound { OnOk result (BindsName S.TypeStore walk.old env.old walk.new env.new
        (λ f t k. entered (enter_name t k (f.context.resolve name.now) (S.tree ty.now)))) }
    ensures goes_on { WalkKept S.TypeStore walk.old walk.new }
{
    let NameMeaning::Local(local) = walk.context.names.resolve(name) else {
        return Ok(());
    };
    if walk.declared.declared(local).is_some() {
        return Ok(());
    }
    let first = walk.store.copy(walk.alloc, ty)?;
    let current = walk.store.copy(walk.alloc, ty)?;
    walk.declared.declare(local, first);
    env.assign(walk.alloc, local, current)?;
    Ok(())
}

/// Gives the local of each parameter, in order, the parameter's type as its declared type and as its current type in
/// `env`. Of parameters with one name, the first counts. Language Reference 8.7 "Function definitions".
fn enter_parameters<S: TypeStore>(
    walk: &mut Walk<'_, S>,
    env: &mut Env<S::Ty>,
    params: &[Parameter<S::Ty>],
) -> Result<(), OutOfMemory>
    requires stands { IsValidIn S.TypeStore walk.old env.old }
    requires params { HoldsParameters S.TypeStore walk.old params.now }
    ensures bound { OnOk result (BindsName S.TypeStore walk.old env.old walk.new env.new
        (λ f t k. entered (enter_parameters f.context.resolve t k (parameters_with S.tree params.now)))) }
    ensures goes_on { WalkKept S.TypeStore walk.old walk.new }
{
    for param in params {
        enter_name(walk, env, param.name.as_str(), &param.ty)?;
    }
    Ok(())
}

/// Gives the local named `self` of a method the method's class as its declared type and as its current type in `env`.
/// Does nothing if `owner` is no method. Language Reference 3.2.8.2 "Instance methods".
fn enter_receiver<S: TypeStore>(
    walk: &mut Walk<'_, S>,
    env: &mut Env<S::Ty>,
    owner: Owner,
) -> Result<(), OutOfMemory>
    requires { IsValidIn S.TypeStore walk.old env.old }
    ensures bound { OnOk result (BindsName S.TypeStore walk.old env.old walk.new env.new
        (λ f t k. entered (enter_parameters f.context.resolve t k (receiver_parameter owner)))) }
    ensures goes_on { WalkKept S.TypeStore walk.old walk.new }
{
    match owner {
        Owner::Module => Ok(()),
        Owner::Func(_) => Ok(()),
        Owner::Method(class, _) => {
            let ty = walk.store.class(walk.alloc, class)?;
            enter_name(walk, env, "self", &ty)?;
            Ok(())
        }
    }
}

/// Appends E21 at `name`, the place of the function's name, if `out` is an environment (the end is reachable) and
/// `None` is no static subtype of `walk.context.returned`. Typing specification, "Return types of functions whose end
/// is reached"; own rule of the profile.
fn check_end<S: TypeStore>(
    walk: &mut Walk<'_, S>,
    name: Place,
    out: &Option<Env<S::Ty>>,
) -> Result<(), OutOfMemory>
    requires { S.has walk.old.store.now walk.old.context.returned.now }
    ensures pushed { OnOk result (notes_of walk.new.found.now ≡ notes_of walk.old.found.now
        ++ end_finds (class_parents walk.old.context.globals.now) (S.tree walk.old.context.returned.now) name
        (option_map (env_of S.tree) out.now)) }
    ensures goes_on { WalkKept S.TypeStore walk.old walk.new }
{
    if out.is_none() {
        return Ok(());
    }
    let parents = walk.context.globals.outline.parents;
    let returned = walk.context.returned;
    let none = walk.store.none(walk.alloc)?;
    if walk.store.is_static(parents, &none, returned) {
        return Ok(());
    }
    walk.found.put(name, Code::E21)?;
    Ok(())
}

/// Checks the body of the function or method `def`: declares its receiver and parameters in `walk`, checks its
/// statements and appends their findings to `walk.found`. Appends E21 at its name if its end is reachable and `None` is
/// not a static subtype of its return type. `owner` is `def` as scopes number it, `params` its typed parameters, and
/// `walk.context` the context of its body. `count` is the number of its locals; none of them may have a declared type
/// yet. Language Reference 8.7 "Function definitions"; own rules of the profile.
fn walk_function<S: TypeStore>(
    walk: &mut Walk<'_, S>,
    owner: Owner,
    count: usize,
    params: &[Parameter<S::Ty>],
    def: &FuncDef,
) -> Result<(), OutOfMemory>
    requires context { HoldsContext (S.has walk.old.store.now) S.tree walk.old.context }
    requires body { body_context_in S.TypeStore walk.old ≡ body_context_of walk.old.context.globals.now.keeps
        (module_of walk.old.context.globals.now.outline.now.tree.now)
        (map S.tree walk.old.context.globals.now.constants.now) owner (func_of def.now) }
    requires count { count ≡ length (locals owner (func_of def.now)) }
    requires declared { walk.old.declared.now ≡ replicate count None }
    requires given { All (HasParameter (S.has walk.old.store.now)) params.now }
    requires params { parameters_with S.tree params.now
        ≡ parameters_of (module_of walk.old.context.globals.now.outline.now.tree.now) (func_of def.now).params }
    ensures pushed { OnOk result
        (notes_of walk.new.found.now ≡ function_finds walk.old.context.globals.now.keeps
        (module_of walk.old.context.globals.now.outline.now.tree.now)
        (map S.tree walk.old.context.globals.now.constants.now) owner (func_of def.now) (notes_of walk.old.found.now)) }
    ensures goes_on { WalkKept S.TypeStore walk.old walk.new }
{
    let mut env = Env::new(walk.alloc, count)?;
    enter_receiver(walk, &mut env, owner)?;
    enter_parameters(walk, &mut env, params)?;
    let mut exit = LoopExit {
        env: None,
        unsettled: Vec::new(walk.alloc),
    };
    let out = check_suite(walk, Some(env), &mut exit, &def.body)?;
    check_end(walk, def.name.place, &out)?;
    Ok(())
}

/// Checks the body of the function or method `def`, which has `count` locals, starting with none of them declared.
/// Appends its findings to `state.found`, and E21 at its name if its end is reachable and `None` is not a static
/// subtype of its return type. `owner` is `def` as scopes number it, `params` its typed parameters, and `context` the
/// context of its body. Language Reference 8.7 "Function definitions"; own rules of the profile.
pub(crate) fn check_function<S: TypeStore>(
    state: &mut TypingState<'_, S>,
    context: BodyContext<'_, S::Ty>,
    owner: Owner,
    count: usize,
    params: &[Parameter<S::Ty>],
    def: &FuncDef,
) -> Result<(), OutOfMemory>
    requires context { HoldsContext (S.has state.old.store.now) S.tree context }
    requires body { body_context_with S.tree context
        ≡ body_context_of context.globals.now.keeps (module_of context.globals.now.outline.now.tree.now)
        (map S.tree context.globals.now.constants.now) owner (func_of def.now) }
    requires count { count ≡ length (locals owner (func_of def.now)) }
    requires given { All (HasParameter (S.has state.old.store.now)) params.now }
    requires params { parameters_with S.tree params.now
        ≡ parameters_of (module_of context.globals.now.outline.now.tree.now) (func_of def.now).params }
    ensures found { OnOk result
        (notes_of state.new.found.now ≡ function_finds context.entry.globals.now.keeps
        (module_of context.entry.globals.now.outline.now.tree.now)
        (map S.tree context.entry.globals.now.constants.now) owner
        (func_of def.now) (notes_of state.old.found.now)) }
    ensures goes_on { StateKeptAfter S.TypeStore state.old state.new }
{
    let mut declared = DeclaredTypes::new(state.alloc, count)?;
    let mut walk = Walk {
        store: state.store,
        alloc: state.alloc,
        context,
        declared: &mut declared,
        found: state.found,
    };
    walk_function(&mut walk, owner, count, params, def)
}
