//! The label of a node, and offers: results of operations on single members of a union.

ghost use Rattle.std.specs.Prelude.{◌≡◌, ◌++◌, IfOk, IfSome, OnOk, flat_map, option_map, option_to_list};
ghost use Rattle.std.specs.Option.{option_copied};
ghost use Rattle.pc_types.specs.Tree.{Tree};
ghost use Rattle.pc_types.specs.Store.{KeepsTypes};
ghost use Rattle.pc_notes.specs.Notes.{notes_of};
ghost use Rattle.pc_rules.specs.Operations.{clean, in_error};
ghost use Rattle.pc_rules.specs.Context.{is_early};
ghost use Rattle.pc_rules.specs.Labels.{is_of_scopes};
ghost use Rattle.pc_rules.specs.Computed.Findings.{own_at, note_of_type, name_after, has_code, add_code, once_onto};
ghost use Rattle.pc_rules.specs.Computed.Standing.{label_with, MeansLabel};

use pc_notes::Notes;
use pc_source::{OutOfMemory, Place};
use pc_tree::Code;
use pc_types::TypeStore;
use std::alloc::Global;

/// The label of a node: its type, and the codes found at it.
#[derive(Drop)]
pub struct Label<Ty: Drop> {
    pub ty: Ty,
    pub codes: Vec<Code>,
}

/// The result of an operation on one member of its operand's type: the code found, the type of the result, and the type
/// that the other operand flows into.
#[derive(Drop)]
pub struct Offer<Ty: Drop> {
    pub found: Option<Code>,
    pub gives: Ty,
    pub takes: Option<Ty>,
}

/// Returns a label of this type without codes.
pub fn clean<Ty: Drop>(alloc: Global, ty: Ty) -> Label<Ty>
    ensures label { (tree : Ty → Tree) → label_with tree result ≡ clean (tree ty) }
    ensures ty { result.ty ≡ ty }
{
    Label {
        ty,
        codes: Vec::new(alloc),
    }
}

/// Returns the label of an expression in error: `Any`, with the error's code.
pub fn in_error<S: TypeStore>(
    store: &mut S,
    alloc: Global,
    code: Code,
) -> Result<Label<S::Ty>, OutOfMemory>
    ensures value { IfOk result (λ l. MeansLabel S.has S.tree store.new l (in_error code)) }
    ensures kept { KeepsTypes S.has store.old store.new }
{
    let ty = store.any(alloc)?;
    let mut codes = Vec::new(alloc);
    codes.push(code)?;
    Ok(Label { ty, codes })
}

/// Returns whether the first of the codes is E03, which replaces all other findings at the node.
pub fn is_early(codes: &[Code]) -> bool
    ensures { result ≡ is_early codes.now }
{
    match codes {
        [Code::E03, ..] => true,
        _ => false,
    }
}

/// Returns whether scope analysis, not typing, reports the code: E02 and E03.
pub(crate) fn is_of_scopes(code: Code) -> bool
    ensures { result ≡ is_of_scopes code }
{
    matches!(code, Code::E02 | Code::E03)
}

/// Appends a finding at a place for each of the codes, except E02 and E03, which scope analysis reports.
pub fn find_codes(place: Place, codes: &[Code], found: &mut Notes) -> Result<(), OutOfMemory>
    ensures { OnOk result (notes_of found.new ≡ notes_of found.old ++ flat_map (own_at place) codes.now) }
{
    for code in codes {
        if !is_of_scopes(*code) {
            found.put(place, *code)?;
        }
    }
    Ok(())
}

/// Appends the notes of a label at its place: its type, if types are kept, and the findings of its codes. `shown` says
/// whether that type is shown.
pub fn note_label<S: TypeStore>(
    store: &S,
    alloc: Global,
    keeps: bool,
    shown: bool,
    place: Place,
    label: &Label<S::Ty>,
    found: &mut Notes,
) -> Result<(), OutOfMemory>
    requires { S.has store.now label.now.ty }
    ensures { OnOk result (notes_of found.new ≡ notes_of found.old
        ++ (note_of_type keeps shown place (S.tree label.now.ty) ++ flat_map (own_at place) label.now.codes.items)) }
{
    if keeps {
        found.put_type(store, alloc, shown, place, &label.ty)?;
    }
    find_codes(place, &label.codes, found)
}

/// Appends the note of a bound name at its place, if types are kept: its declared type, and its current type after the
/// binding, if it has a value then.
pub fn note_name<S: TypeStore>(
    store: &S,
    alloc: Global,
    keeps: bool,
    place: Place,
    declared: &S::Ty,
    current: Option<&S::Ty>,
    found: &mut Notes,
) -> Result<(), OutOfMemory>
    requires declared { S.has store.now declared.now }
    requires current { IfSome (option_copied current) (S.has store.now) }
    ensures { OnOk result (notes_of found.new ≡ name_after keeps (notes_of found.old) place (S.tree declared.now)
        (option_map S.tree (option_copied current.entry))) }
{
    if !keeps {
        return Ok(());
    }
    found.put_name(store, alloc, place, declared, current)
}

/// Returns whether a code is among these codes.
pub(crate) fn has_code(codes: &[Code], code: Code) -> bool
    ensures { result ≡ has_code codes.now code }
{
    codes.contains(&code)
}

/// Adds a code, unless it is already among the codes.
pub(crate) fn add_code(codes: &mut Vec<Code>, code: Code) -> Result<(), OutOfMemory>
    ensures { OnOk result (codes.new.items ≡ add_code codes.old.items code) }
{
    if !has_code(codes, code) {
        codes.push(code)?;
    }
    Ok(())
}

/// Adds a code, if there is one, unless it is already among the codes.
pub fn add_found(codes: &mut Vec<Code>, found: Option<Code>) -> Result<(), OutOfMemory>
    ensures { OnOk result (codes.new.items ≡ once_onto codes.old.items (option_to_list found)) }
{
    match found {
        Some(code) => add_code(codes, code),
        None => Ok(()),
    }
}
