//! The signatures of a module, by `pc_signatures`, and the type of its last initializer, over any store of types.
ghost use Rattle.std.specs.Prelude.{◌≡◌, All, IfOk};
ghost use Rattle.pc_tree.specs.Tree.{module_of};
ghost use Rattle.pc_scope.specs.ModuleScopes.{AreScopes};
ghost use Rattle.pc_class.specs.Facts.{classes_of};
ghost use Rattle.pc_class.specs.Tables.{HasEntries, HasParameter, classes_with};
ghost use Rattle.pc_rules.specs.Computed.Standing.{HasIfAny, HasSignature};

use crate::notes::listed;
use pc_annotations::{ModuleOutline, type_text};
use pc_class::{ClassTable, Parameter};
use pc_expr::check_expr;
use pc_flow::{DeclaredTypes, Env, OwnerNames};
use pc_notes::Notes;
use pc_rules::{ExprContext, ModuleContext, Signature, TypingState};
use pc_scope::{Owner, Scopes};
use pc_signatures::read_signatures;
use pc_source::OutOfMemory;
use pc_tree::{Expr, ItemKind, Module};
use pc_types::TypeStore;
use std::alloc::Global;

/// Appends the text of a type after those of others.
fn add_text(out: &mut String, text: &str) -> Result<(), OutOfMemory> {
    if !out.is_empty() {
        out.push_str(", ")?;
    }
    Ok(out.push_str(text)?)
}

/// Returns the types of constants.
fn constants_text<S: TypeStore>(
    store: &S,
    alloc: Global,
    tree: &Module,
    constants: &[S::Ty],
) -> Result<String, OutOfMemory>
    requires { All (S.has store.now) constants.now }
{
    let mut out = String::new(alloc);
    for ty in constants {
        add_text(&mut out, type_text(store, alloc, tree, ty)?.as_str())?;
    }
    Ok(out)
}

/// Returns a parameter as `x: int`, with ` =` if it has a default.
fn parameter_text<S: TypeStore>(
    store: &S,
    alloc: Global,
    tree: &Module,
    parameter: &Parameter<S::Ty>,
) -> Result<String, OutOfMemory>
    requires { HasParameter (S.has store.now) parameter.now }
{
    let ty = type_text(store, alloc, tree, &parameter.ty)?;
    let label = if parameter.has_default { " =" } else { "" };
    Ok(format!(in alloc; "{}: {ty}{label}", parameter.name)?)
}

/// Returns parameters, in order.
fn parameters_text<S: TypeStore>(
    store: &S,
    alloc: Global,
    tree: &Module,
    parameters: &[Parameter<S::Ty>],
) -> Result<String, OutOfMemory>
    requires { All (HasParameter (S.has store.now)) parameters.now }
{
    let mut out = String::new(alloc);
    for parameter in parameters {
        let text = parameter_text(store, alloc, tree, parameter)?;
        add_text(&mut out, text.as_str())?;
    }
    Ok(out)
}

/// Returns the parameters and the return type of a function: `(x: int, y: str =) -> bool`.
fn signature_text<S: TypeStore>(
    store: &S,
    alloc: Global,
    tree: &Module,
    signature: &Signature<S::Ty>,
) -> Result<String, OutOfMemory>
    requires { HasSignature (S.has store.now) signature.now }
{
    let parameters = parameters_text(store, alloc, tree, signature.params.as_slice())?;
    let ret = type_text(store, alloc, tree, &signature.ret)?;
    Ok(format!(in alloc; "({parameters}) -> {ret}")?)
}

/// Returns the parameters and the return types of functions.
fn functions_text<S: TypeStore>(
    store: &S,
    alloc: Global,
    tree: &Module,
    functions: &[Signature<S::Ty>],
) -> Result<String, OutOfMemory>
    requires { All (HasSignature (S.has store.now)) functions.now }
{
    let mut out = String::new(alloc);
    for signature in functions {
        let text = signature_text(store, alloc, tree, signature)?;
        add_text(&mut out, text.as_str())?;
    }
    Ok(out)
}

/// Returns the types of constants, the signatures of functions, and the findings in both, as a table writes them.
fn signatures_text<S: TypeStore>(
    state: &TypingState<'_, S>,
    tree: &Module,
    constants: &[S::Ty],
    functions: &[Signature<S::Ty>],
) -> Result<String, OutOfMemory>
    requires constants { All (S.has state.now.store.now) constants.now }
    requires functions { All (HasSignature (S.has state.now.store.now)) functions.now }
{
    let constants = constants_text(state.store, state.alloc, tree, constants)?;
    let functions = functions_text(state.store, state.alloc, tree, functions)?;
    told(
        state.alloc,
        constants.as_str(),
        functions.as_str(),
        state.found,
    )
}

/// Returns two texts, followed by the findings.
fn told(alloc: Global, one: &str, other: &str, notes: &Notes) -> Result<String, OutOfMemory> {
    let found = listed(alloc, notes)?;
    Ok(format!(in alloc; "{one}; {other}; {found}")?)
}

/// Returns the initializer of the last constant of a module.
fn last_initializer(tree: &Module) -> Option<&Expr> {
    let mut last = None;
    for item in &tree.items {
        if let ItemKind::Constant(constant) = &item.kind {
            last = Some(&constant.value);
        }
    }
    last
}

/// Returns a type and the findings, as a table writes them.
fn typed(alloc: Global, ty: &str, notes: &Notes) -> Result<String, OutOfMemory> {
    let found = listed(alloc, notes)?;
    Ok(format!(in alloc; "{ty}; {found}")?)
}

/// Returns the type of the last constant, if it is expected of its initializer.
fn expected<S: TypeStore>(
    store: &S,
    alloc: Global,
    constants: &[S::Ty],
    is_expected: bool,
) -> Result<Option<S::Ty>, OutOfMemory>
    requires { All (S.has store.now) constants.now }
    ensures { IfOk result (λ want. HasIfAny (S.has store.now) want) }
{
    match constants.last() {
        Some(ty) if is_expected => Ok(Some(store.copy(alloc, ty)?)),
        _ => Ok(None),
    }
}

/// Returns the type of the initializer of a module's last constant, perhaps with an expected type, and the findings in
/// it. In a body functions may be called.
fn label_text<S: TypeStore>(
    store: &mut S,
    alloc: Global,
    globals: &ModuleContext<'_, S::Ty>,
    in_body: bool,
    want: &Option<S::Ty>,
) -> Result<String, OutOfMemory>
    requires want { HasIfAny (S.has store.old) want.now }
    requires classes { HasEntries (S.has store.old) globals.now.classes.now }
    requires functions { All (HasSignature (S.has store.old)) globals.now.functions.now }
    requires constants { All (S.has store.old) globals.now.constants.now }
{
    let Some(value) = last_initializer(globals.outline.tree) else {
        return Ok(String::from_str(alloc, "no constant")?);
    };
    let names = OwnerNames {
        scopes: globals.outline.scopes,
        owner: Owner::Module,
    };
    let declared = DeclaredTypes::new(alloc, 0)?;
    let env = Env::new(alloc, 0)?;
    let context = ExprContext {
        globals,
        in_body,
        names: &names,
        declared: &declared,
    };
    let mut notes = Notes::new(alloc);
    let mut state = TypingState {
        store,
        alloc,
        found: &mut notes,
    };
    let label = check_expr(&mut state, &context, &env, want, value)?;
    let ty = type_text(state.store, alloc, globals.outline.tree, &label.ty)?;
    typed(alloc, ty.as_str(), &notes)
}

/// Returns the types of a module's constants and functions by its signatures, with the findings in them; or the type of
/// its last initializer, in which all its constants and classes may be named.
pub fn signed_text<S: TypeStore>(
    store: &mut S,
    alloc: Global,
    tree: &Module,
    scopes: &Scopes,
    classes: &ClassTable<S::Ty>,
    part: &str,
) -> Result<String, OutOfMemory>
    requires scopes { AreScopes (module_of tree.now) scopes.now }
    requires classes { classes_with S.tree classes.now ≡ classes_of (module_of tree.now) }
    requires entries { HasEntries (S.has store.old) classes.now }
{
    let mut notes = Notes::new(alloc);
    let mut state = TypingState {
        store,
        alloc,
        found: &mut notes,
    };
    let outline = ModuleOutline {
        tree,
        scopes,
        parents: classes.parents(),
    };
    let signed = read_signatures(&mut state, &outline, classes, false)?;
    let (constants, functions) = (signed.constants(), signed.functions());
    if part == "SIGNATURES" {
        return signatures_text(&state, tree, constants, functions);
    }
    let globals = ModuleContext {
        outline: &outline,
        classes,
        functions,
        constants,
        known: classes.count(),
        keeps: false,
    };
    let want = expected(state.store, alloc, constants, part == "EXPECTED")?;
    label_text(state.store, alloc, &globals, part != "INITIAL", &want)
}
