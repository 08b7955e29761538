//! The bodies of the functions and methods of a module.
#![tactic(auto, using(pc_rules::proofs::TypingStates::goes_further))]

ghost use Rattle.std.specs.Prelude.{◌≡◌, OnOk, Some};
ghost use Rattle.std.specs.Option.{option_copied};
ghost use Rattle.pc_tree.specs.Tree.{func_of};
ghost use Rattle.pc_scope.specs.Resolution.{function_of};
ghost use Rattle.pc_notes.specs.Notes.{notes_of};
ghost use Rattle.pc_rules.specs.Computed.TypingStates.{StateKept};
ghost use Rattle.pc_rules.specs.Computed.Signatures.{constants_of};
ghost use Rattle.pc_module_rules.specs.Computed.Statements.{function_finds};
ghost use Rattle.pc_check.specs.Internal.ModuleWalk.{module_in, signature_for, IsModuleBodies};

use crate::entering::check_function;
use pc_flow::OwnerNames;
use pc_rules::{ModuleContext, Signature, TypingState};
use pc_scope::Owner;
use pc_signatures::Signatures;
use pc_source::OutOfMemory;
use pc_tree::FuncDef;
use pc_types::TypeStore;
use pc_walk::BodyContext;

/// The context shared by all function bodies of a module: its globals, and the signatures of its functions and methods.
#[derive(Drop)]
pub struct ModuleBodies<'m, Ty: Drop> {
    pub globals: &'m ModuleContext<'m, Ty>,
    pub signatures: &'m Signatures<Ty>,
}

/// Returns the signature of the function or method that `owner` names; `None` for the module itself, or if there is no
/// such function.
fn signature_for<Ty: Drop>(signatures: &Signatures<Ty>, owner: Owner) -> Option<&Signature<Ty>>
    ensures { option_copied result ≡ signature_for signatures.now owner }
{
    match owner {
        Owner::Module => None,
        Owner::Func(number) => signatures.function(number),
        Owner::Method(class, number) => signatures.method(class, number),
    }
}

/// Checks the body of `def`, which is the function or method that `owner` names. Appends its findings, and E21 at its
/// name if its end is reachable and `None` is not a static subtype of its return type. Does nothing if it has no
/// signature. Language Reference 3.12, 8.7 "Function definitions".
pub(crate) fn check_owned<S: TypeStore>(
    state: &mut TypingState<'_, S>,
    bodies: &ModuleBodies<'_, S::Ty>,
    owner: Owner,
    def: &FuncDef,
) -> Result<(), OutOfMemory>
    requires bodies { IsModuleBodies (S.has state.old.store.now) S.tree bodies.now }
    requires owner { function_of (module_in bodies.now) owner ≡ Some (func_of def.now) }
    ensures found { OnOk result
        (notes_of state.new.found.now ≡ function_finds bodies.now.globals.now.keeps (module_in bodies.now)
        (constants_of (module_in bodies.now)) owner (func_of def.now) (notes_of state.old.found.now)) }
    ensures goes_on { StateKept S.TypeStore state.old state.new }
{
    match signature_for(bodies.signatures, owner) {
        None => Ok(()),
        Some(signature) => {
            let names = OwnerNames {
                scopes: bodies.globals.outline.scopes,
                owner,
            };
            let context = BodyContext {
                globals: bodies.globals,
                names: &names,
                returned: &signature.ret,
            };
            let count = bodies.globals.outline.scopes.count_locals(owner);
            let params = signature.params.as_slice();
            check_function(state, context, owner, count, params, def)
        }
    }
}
