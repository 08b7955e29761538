//! Names as callees.

ghost use Rattle.std.specs.Prelude.{IfOk};
ghost use Rattle.pc_tree.specs.Tree.{name_of};
ghost use Rattle.pc_types.specs.Store.{KeepsTypes};
ghost use Rattle.pc_flow.specs.Stored.{env_of};
ghost use Rattle.pc_rules.specs.Calls.{name_callee};
ghost use Rattle.pc_rules.specs.Computed.Standing.{context_with, HasGivenAll};
ghost use Rattle.pc_calls.specs.JudgedCalls.{given_with, IsCallee};
ghost use Rattle.pc_flow.specs.Naming.{meanings};

use crate::arguments::Given;
use crate::callee::{
    TypedCallee, callee_in_error, callee_of_builtin, callee_of_value, good_callee,
};
use crate::functions::{class_offer, function_offer};
use pc_flow::Env;
use pc_rules::{ExprContext, name_label};
use pc_scope::NameMeaning;
use pc_source::OutOfMemory;
use pc_tree::{Code, Name};
use pc_types::TypeStore;
use std::alloc::Global;

/// Returns a name as a callee: a function, a class or a built-in, and otherwise a value. E03 for a function or class
/// that an initializer may not use yet. Language Reference 6.3.4 "Calls".
pub fn callee_of_name<'t, S: TypeStore>(
    store: &mut S,
    alloc: Global,
    context: &ExprContext<'t, S::Ty>,
    env: &Env<S::Ty>,
    given: &Given,
    name: &Name,
) -> Result<TypedCallee<'t, S::Ty>, OutOfMemory>
    requires { HasGivenAll (S.has store.old) S.tree context.now env.now }
    ensures callee { IfOk result
        (λ c. IsCallee S.has S.tree store.new c
        (name_callee (context_with S.tree context.now) (env_of S.tree env.now) (given_with given.now)
        (meanings context.now.names.now (name_of name.now).text))) }
    ensures kept { KeepsTypes S.has store.old store.new }
{
    match context.names.resolve(name.text.as_str()) {
        NameMeaning::Func(function) => {
            if !context.in_body {
                return callee_in_error(store, alloc, Code::E03);
            }
            let offer = function_offer(store, alloc, given, context.globals.functions, function)?;
            good_callee(store, alloc, offer)
        }
        NameMeaning::Class(class) => {
            if class >= context.globals.known {
                return callee_in_error(store, alloc, Code::E03);
            }
            let offer = class_offer(store, alloc, given, context.globals.classes, class)?;
            good_callee(store, alloc, offer)
        }
        NameMeaning::Builtin(builtin) => callee_of_builtin(store, alloc, given, builtin),
        NameMeaning::Local(_) | NameMeaning::Const(_) | NameMeaning::None => {
            let label = name_label(store, alloc, context, env, name)?;
            callee_of_value(store, alloc, label)
        }
    }
}
