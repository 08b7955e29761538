//! The classes and the constants of a module, in text order.
#![tactic(auto, using(pc_rules::proofs::TypingStates::goes_further))]

ghost use Rattle.std.specs.Prelude.{◌≡◌, ◌++◌, ◌∷◌, [], if◌then◌else◌, map, length, IfOk, None, OnOk, All, false};
ghost use Rattle.std.specs.Option.{option_map};
ghost use Rattle.pc_source.specs.declared.place.Place.{Place};
ghost use Rattle.pc_tree.specs.Tree.{expr_of, class_of, constant_of, item_of};
ghost use Rattle.pc_tree.specs.Tree.{constant_item, class_item};
ghost use Rattle.pc_scope.specs.Bindings.{classes_in};
ghost use Rattle.pc_types.specs.Store.{Means};
ghost use Rattle.pc_annotations.specs.ModuleOutlines.{module_in};
ghost use Rattle.pc_class.specs.Built.{IsClassAt};
ghost use Rattle.pc_class.specs.Outlines.{IsClassNumbered};
ghost use Rattle.pc_rules.specs.Computed.Signatures.{class_methods, signatures_of_methods, initial};
ghost use Rattle.pc_rules.specs.Computed.Signatures.{type_of_constant, constant_findings, behind, item_findings};
ghost use Rattle.pc_rules.specs.Computed.Signatures.{items_findings, constants_of, method_signatures};
ghost use Rattle.pc_rules.specs.Computed.Signatures.{class_notes, value_findings};
ghost use Rattle.pc_rules.specs.Computed.Signatures.{nothing_reached};
ghost use Rattle.pc_rules.specs.Computed.Findings.{name_after};
ghost use Rattle.pc_callables.specs.SignaturesRead.{AreGlobals};
ghost use Rattle.pc_signatures.specs.Internal.ItemsRead.{HasReached, methods_with, reached_with};
ghost use Rattle.pc_rules.specs.Computed.Standing.{HasIfAny, label_in, finds_in};
ghost use Rattle.pc_rules.specs.Computed.TypingStates.{AddsNotes, StateKept, IsLabel};

use indexmap::IndexSet;
use pc_callables::{
    BoundNames, ClassNumbers, bind, binds, find_into, read_annotation, read_members,
};
use pc_expr::check_expr;
use pc_flow::{DeclaredTypes, Env, OwnerNames};
use pc_rules::{ExprContext, Label, ModuleContext, Signature, TypingState, note_name};
use pc_scope::Owner;
use pc_source::OutOfMemory;
use pc_tree::{ClassDef, Constant, Expr, Item, ItemKind};
use pc_types::TypeStore;

/// State of reading items: the types of the constants, the signatures of each class's methods, and the bound names so
/// far.
#[derive(Drop)]
pub(crate) struct ItemsRead<Ty: Drop> {
    pub constants: Vec<Ty>,
    pub methods: Vec<Vec<Signature<Ty>>>,
    pub bound: BoundNames,
}

/// Types an initializer that may name only the constants and classes read so far, with `want` as its expected type.
/// Appends its findings and returns its label.
fn type_initializer<S: TypeStore>(
    state: &mut TypingState<'_, S>,
    globals: &ModuleContext<'_, S::Ty>,
    read: &ItemsRead<S::Ty>,
    want: &Option<S::Ty>,
    value: &Expr,
) -> Result<Label<S::Ty>, OutOfMemory>
    requires globals { AreGlobals S.has S.tree state.old.store.now globals.now }
    requires constants { All (S.has state.old.store.now) read.now.constants.items }
    requires want { HasIfAny (S.has state.old.store.now) want.now }
    ensures labelled { IfOk result
        (λ l. IsLabel S.TypeStore state.new l
        (label_in (initial (module_in globals.now.outline.now) false (map S.tree read.now.constants.items)
        (length read.now.methods.items)) (option_map S.tree want.now) (expr_of value.now))) }
    ensures found { OnOk result (AddsNotes state.old state.new
        (finds_in (initial (module_in globals.now.outline.now) globals.now.keeps (map S.tree read.now.constants.items)
        (length read.now.methods.items)) (option_map S.tree want.now) (expr_of value.now))) }
    ensures goes_on { StateKept S.TypeStore state.old state.new }
{
    let names = OwnerNames {
        scopes: globals.outline.scopes,
        owner: Owner::Module,
    };
    let declared = DeclaredTypes::new(state.alloc, 0)?;
    let env = Env::new(state.alloc, 0)?;
    let so_far = ModuleContext {
        outline: globals.outline,
        classes: globals.classes,
        functions: globals.functions,
        constants: &read.constants,
        known: read.methods.len(),
        keeps: globals.keeps,
    };
    let context = ExprContext {
        globals: &so_far,
        in_body: false,
        names: &names,
        declared: &declared,
    };
    check_expr(state, &context, &env, want, value)
}

/// Types the initializer of a constant with this annotated type. Appends its findings and, if the constant binds its
/// name, that of its flow into the type.
fn check_annotated<S: TypeStore>(
    state: &mut TypingState<'_, S>,
    globals: &ModuleContext<'_, S::Ty>,
    read: &ItemsRead<S::Ty>,
    binds: bool,
    ty: &S::Ty,
    value: &Expr,
) -> Result<(), OutOfMemory>
    requires globals { AreGlobals S.has S.tree state.old.store.now globals.now }
    requires constants { All (S.has state.old.store.now) read.now.constants.items }
    requires ty { S.has state.old.store.now ty.now }
    ensures found { OnOk result (AddsNotes state.old state.new
        (value_findings (module_in globals.now.outline.now) globals.now.keeps (reached_with S.tree read.now)
        (if binds then S.tree ty.now ∷ [] else []) (expr_of value.now))) }
    ensures goes_on { StateKept S.TypeStore state.old state.new }
{
    if !binds {
        type_initializer(state, globals, read, &None, value)?;
        return Ok(());
    }
    let want = Some(state.store.copy(state.alloc, ty)?);
    let label = type_initializer(state, globals, read, &want, value)?;
    find_into(state, globals.outline.parents, value.place(), &label, ty)
}

/// Returns the type of a constant: its annotation, else the type of its initializer. Appends the findings in the
/// annotation, in the initializer and of its flow. Language Reference 3.12, 7.2 "Assignment statements"; typing
/// specification, "Type annotations".
fn read_constant<S: TypeStore>(
    state: &mut TypingState<'_, S>,
    globals: &ModuleContext<'_, S::Ty>,
    read: &ItemsRead<S::Ty>,
    constant: &Constant,
) -> Result<S::Ty, OutOfMemory>
    requires globals { AreGlobals S.has S.tree state.old.store.now globals.now }
    requires constants { All (S.has state.old.store.now) read.now.constants.items }
    ensures typed { IfOk result
        (λ t. Means S.has S.tree state.new.store.now t
        (type_of_constant (module_in globals.now.outline.now) (reached_with S.tree read.now)
        (constant_of constant.now))) }
    ensures found { OnOk result (AddsNotes state.old state.new
        (constant_findings (module_in globals.now.outline.now) globals.now.keeps (reached_with S.tree read.now)
        (constant_of constant.now))) }
    ensures goes_on { StateKept S.TypeStore state.old state.new }
{
    let value = &constant.value;
    match &constant.annotation {
        None => {
            let label = type_initializer(state, globals, read, &None, value)?;
            Ok(label.ty)
        }
        Some(ann) => {
            let ty = read_annotation(state, globals.outline, ann)?;
            let binds = binds(&read.bound, constant.name.text.as_str());
            check_annotated(state, globals, read, binds, &ty, value)?;
            Ok(ty)
        }
    }
}

/// Checks a constant and appends its findings, and if types are kept, its name with its type. Adds its type and its
/// name to `read`.
#[tactic(auto, using(pc_rules::proofs::TypingStates::goes_further, pc_rules::proofs::NamesAfter::after_append))]
fn add_constant<S: TypeStore>(
    state: &mut TypingState<'_, S>,
    globals: &ModuleContext<'_, S::Ty>,
    read: &mut ItemsRead<S::Ty>,
    constant: &Constant,
) -> Result<(), OutOfMemory>
    requires globals { AreGlobals S.has S.tree state.old.store.now globals.now }
    requires held { HasReached (S.has state.old.store.now) read.old }
    ensures held { OnOk result (HasReached (S.has state.new.store.now) read.new) }
    ensures methods { OnOk result (read.new.methods ≡ read.old.methods) }
    ensures reached { (p : Place)
        → OnOk result (reached_with S.tree read.new
        ≡ behind (module_in globals.now.outline.now) (reached_with S.tree read.old)
        (constant_item p (constant_of constant.now))) }
    ensures found { OnOk result (AddsNotes state.old state.new
        (name_after globals.now.keeps
        (constant_findings (module_in globals.now.outline.now) globals.now.keeps (reached_with S.tree read.old)
        (constant_of constant.now)) constant.now.name.place
        (type_of_constant (module_in globals.now.outline.now) (reached_with S.tree read.old)
        (constant_of constant.now)) None)) }
    ensures goes_on { StateKept S.TypeStore state.old state.new }
{
    let ty = read_constant(state, globals, read, constant)?;
    let place = constant.name.place;
    let current: Option<S::Ty> = None;
    note_name(
        state.store,
        state.alloc,
        globals.keeps,
        place,
        &ty,
        current.as_ref(),
        state.found,
    )?;
    read.constants.push(ty)?;
    bind(&mut read.bound, state.alloc, constant.name.text.as_str())
}

/// Checks the members of a class and appends their findings. Adds the signatures of its methods and its name to `read`.
fn add_class<S: TypeStore>(
    state: &mut TypingState<'_, S>,
    globals: &ModuleContext<'_, S::Ty>,
    read: &mut ItemsRead<S::Ty>,
    class: &ClassDef,
) -> Result<(), OutOfMemory>
    requires globals { AreGlobals S.has S.tree state.old.store.now globals.now }
    requires held { HasReached (S.has state.old.store.now) read.old }
    requires class { IsClassAt (module_in globals.now.outline.now) (length read.old.methods.items)
        (class_of class.now) }
    ensures held { OnOk result (HasReached (S.has state.new.store.now) read.new) }
    ensures methods { OnOk result
        (map (methods_with S.tree) read.new.methods.items
        ≡ map (methods_with S.tree) read.old.methods.items
        ++ class_methods (module_in globals.now.outline.now) (class_of class.now) ∷ []) }
    ensures reached { (p : Place)
        → OnOk result (reached_with S.tree read.new
        ≡ behind (module_in globals.now.outline.now) (reached_with S.tree read.old)
        (class_item p (class_of class.now))) }
    ensures found { OnOk result (AddsNotes state.old state.new
        (class_notes (module_in globals.now.outline.now) (length read.old.methods.items) (class_of class.now))) }
    ensures goes_on { StateKept S.TypeStore state.old state.new }
{
    let number = read.methods.len();
    let base = globals.outline.parents.base(number);
    let numbers = ClassNumbers { number, base };
    let methods = read_members(state, globals, numbers, &class.members)?;
    read.methods.push(methods)?;
    bind(&mut read.bound, state.alloc, class.name.text.as_str())
}

/// Checks an item that is a constant or a class and appends its findings. Adds it to `read`; of a function only the
/// name, since functions are read before.
fn add_item<S: TypeStore>(
    state: &mut TypingState<'_, S>,
    globals: &ModuleContext<'_, S::Ty>,
    read: &mut ItemsRead<S::Ty>,
    item: &Item,
) -> Result<(), OutOfMemory>
    requires globals { AreGlobals S.has S.tree state.old.store.now globals.now }
    requires held { HasReached (S.has state.old.store.now) read.old }
    requires class { IsClassNumbered (module_in globals.now.outline.now) (length read.old.methods.items)
        (item_of item.now) }
    ensures held { OnOk result (HasReached (S.has state.new.store.now) read.new) }
    ensures methods { OnOk result
        (map (methods_with S.tree) read.new.methods.items
        ≡ map (methods_with S.tree) read.old.methods.items
        ++ signatures_of_methods (module_in globals.now.outline.now) (classes_in (item_of item.now ∷ []))) }
    ensures reached { OnOk result
        (reached_with S.tree read.new
        ≡ behind (module_in globals.now.outline.now) (reached_with S.tree read.old) (item_of item.now)) }
    ensures found { OnOk result (AddsNotes state.old state.new
        (item_findings (module_in globals.now.outline.now) globals.now.keeps (reached_with S.tree read.old)
        (item_of item.now))) }
    ensures goes_on { StateKept S.TypeStore state.old state.new }
{
    match &item.kind {
        ItemKind::Constant(constant) => add_constant(state, globals, read, constant),
        ItemKind::Class(class) => add_class(state, globals, read, class),
        ItemKind::Def(def) => bind(&mut read.bound, state.alloc, def.name.text.as_str()),
    }
}

/// Checks the constants and classes of a module in text order and appends their findings. Returns the types of the
/// constants and the signatures of each class's methods.
#[tactic(auto, using(pc_rules::proofs::TypingStates::goes_further), unfolding(pc_rules::specs::Computed::Signatures::constants_of, pc_rules::specs::Computed::Signatures::method_signatures))]
pub(crate) fn read_items<S: TypeStore>(
    state: &mut TypingState<'_, S>,
    globals: &ModuleContext<'_, S::Ty>,
) -> Result<ItemsRead<S::Ty>, OutOfMemory>
    requires { AreGlobals S.has S.tree state.old.store.now globals.now }
    ensures held { IfOk result (HasReached (S.has state.new.store.now)) }
    ensures constants { IfOk result
        (λ w. map S.tree w.constants.items ≡ constants_of (module_in globals.now.outline.now)) }
    ensures methods { IfOk result
        (λ w. map (methods_with S.tree) w.methods.items ≡ method_signatures (module_in globals.now.outline.now)) }
    ensures found { OnOk result (AddsNotes state.old state.new
        (items_findings (module_in globals.now.outline.now) globals.now.keeps nothing_reached
        (module_in globals.now.outline.now).items)) }
    ensures goes_on { StateKept S.TypeStore state.old state.new }
{
    let mut read = ItemsRead {
        constants: Vec::new(state.alloc),
        methods: Vec::new(state.alloc),
        bound: IndexSet::with_hasher(state.alloc, globals.outline.tree.keys),
    };
    let items = globals.outline.tree.items.as_slice();
    for item in items {
        add_item(state, globals, &mut read, item)?;
    }
    Ok(read)
}
