//! Operations on values whose types may be unions.

ghost use Rattle.std.specs.Prelude.{◌≡◌, ◌≤◌, ◌++◌, ◌∷◌, [], All, IfOk, OnOk, map, option_to_list, MatchOption};
ghost use Rattle.std.specs.Option.{option_map};
ghost use Rattle.pc_tree.specs.Tree.{expr_of};
ghost use Rattle.pc_tree.specs.Digits.{number_behind};
ghost use Rattle.pc_types.specs.Tree.{Tree};
ghost use Rattle.pc_types.specs.Below.{Bases};
ghost use Rattle.pc_types.specs.Shape.{members, nodes, node_limit};
ghost use Rattle.pc_types.specs.Store.{Means, KeepsTypes};
ghost use Rattle.pc_class.specs.Tables.{HasEntries, classes_with};
ghost use Rattle.pc_rules.specs.Operations.{has_error, found_of, offers_label, operand_types, index_member};
ghost use Rattle.pc_rules.specs.Lawful.{int_literal};
ghost use Rattle.pc_rules.specs.Computed.Standing.{HasIfAny, HasOffer, offer_with, MeansLabel};
ghost use Rattle.pc_operations.specs.JudgedOperations.{IsOffer, offer_on};

use crate::kinds::is_single;
use crate::members::{
    attribute_offer, contain_offer, index_offer, iterate_offer, join_types, length_offer,
    negative_offer,
};
use pc_class::ClassTable;
use pc_rules::{Label, Offer, add_found};
use pc_source::OutOfMemory;
use pc_tree::{Code, Expr};
use pc_types::{Parents, TypeStore};
use std::alloc::Global;

/// An operation on a value, whose type may be a union: every member must support it.
#[derive(Clone, Copy)]
pub enum Operation<'n> {
    /// `-e`
    Negative,
    /// `e.name`
    Attribute(&'n str),
    /// `e[i]`, with the value of the index if it is a small int literal.
    Index(Option<usize>),
    /// `for x in e`
    Iterate,
    /// `a in e`
    Contain,
    /// `len(e)`
    Length,
}

/// Returns the result of an operation on one member.
fn offer_on<S: TypeStore>(
    store: &mut S,
    alloc: Global,
    parents: &Parents,
    classes: &ClassTable<S::Ty>,
    operation: Operation<'_>,
    member: &S::Ty,
) -> Result<Offer<S::Ty>, OutOfMemory>
    requires member { S.has store.old member.now }
    requires classes { HasEntries (S.has store.old) classes.now }
    ensures value { IfOk result
        (λ o. IsOffer S.has S.tree store.new o
        (offer_on parents.now (classes_with S.tree classes.now) operation.entry (S.tree member.now))) }
    ensures kept { KeepsTypes S.has store.old store.new }
{
    match operation {
        Operation::Negative => negative_offer(store, alloc, member),
        Operation::Attribute(name) => attribute_offer(store, alloc, classes, name, member),
        Operation::Index(literal) => index_offer(store, alloc, parents, literal, member),
        Operation::Iterate => iterate_offer(store, alloc, parents, member),
        Operation::Contain => contain_offer(store, alloc, member),
        Operation::Length => length_offer(store, alloc, member),
    }
}

/// Returns the result of an operation on a type that is its own only member, as a list of one.
fn only_offer<S: TypeStore>(
    store: &mut S,
    alloc: Global,
    parents: &Parents,
    classes: &ClassTable<S::Ty>,
    operation: Operation<'_>,
    member: &S::Ty,
) -> Result<Vec<Offer<S::Ty>>, OutOfMemory>
    requires member { S.has store.old member.now }
    requires classes { HasEntries (S.has store.old) classes.now }
    ensures held { IfOk result (λ os. All (HasOffer (S.has store.new)) os.items) }
    ensures value { IfOk result
        (λ os. map (offer_with S.tree) os.items
        ≡ offer_on parents.now (classes_with S.tree classes.now) operation.entry (S.tree member.now) ∷ []) }
    ensures kept { KeepsTypes S.has store.old store.new }
{
    let mut offers = Vec::new(alloc);
    let offer = offer_on(store, alloc, parents, classes, operation, member)?;
    offers.push(offer)?;
    Ok(offers)
}

/// Returns the results of an operation on each member of a type, in order.
pub fn member_offers<S: TypeStore>(
    store: &mut S,
    alloc: Global,
    parents: &Parents,
    classes: &ClassTable<S::Ty>,
    operation: Operation<'_>,
    ty: &S::Ty,
) -> Result<Vec<Offer<S::Ty>>, OutOfMemory>
    requires ty { S.has store.old ty.now }
    requires classes { HasEntries (S.has store.old) classes.now }
    ensures held { IfOk result (λ os. All (HasOffer (S.has store.new)) os.items) }
    ensures value { IfOk result
        (λ os. map (offer_with S.tree) os.items
        ≡ map (offer_on parents.now (classes_with S.tree classes.now) operation.entry) (members (S.tree ty.now))) }
    ensures kept { KeepsTypes S.has store.old store.new }
{
    if is_single(store, ty) {
        return only_offer(store, alloc, parents, classes, operation, ty);
    }
    let members = store.members(alloc, ty)?;
    let mut offers = Vec::new(alloc);
    for i in 0..members.len() {
        let offer = offer_on(store, alloc, parents, classes, operation, &members[i])?;
        offers.push(offer)?;
    }
    Ok(offers)
}

/// Returns whether one of the codes is an error.
pub fn has_error(codes: &[Code]) -> bool
    ensures { result ≡ has_error codes.now }
{
    codes.iter().any(|code| code.is_error())
}

/// Returns the label of an operation, given its results on each member: the join of their types, `Any` if one is in
/// error, and each code once.
pub fn offers_label<S: TypeStore>(
    store: &mut S,
    alloc: Global,
    parents: &Parents,
    offers: &[Offer<S::Ty>],
) -> Result<Label<S::Ty>, OutOfMemory>
    requires { All (HasOffer (S.has store.old)) offers.now }
    ensures value { IfOk result
        (λ l. MeansLabel S.has S.tree store.new l (offers_label parents.now (map (offer_with S.tree) offers.now))) }
    ensures kept { KeepsTypes S.has store.old store.new }
{
    let mut codes = Vec::new(alloc);
    let mut types = Vec::new(alloc);
    for offer in offers {
        add_found(&mut codes, offer.found)?;
        types.push(store.copy(alloc, &offer.gives)?)?;
    }
    if has_error(&codes) {
        let ty = store.any(alloc)?;
        return Ok(Label { ty, codes });
    }
    let ty = join_types(store, alloc, parents, &types)?;
    Ok(Label { ty, codes })
}

/// Returns whether there is a code and it is an error.
fn is_error(found: Option<Code>) -> bool
    ensures { result ≡ has_error (option_to_list found) }
{
    match found {
        Some(code) => code.is_error(),
        None => false,
    }
}

/// Returns whether an operation is in error on one of the members.
fn is_wrong<Ty: Drop>(offers: &[Offer<Ty>]) -> bool
    ensures { (tree : Ty → Tree) → result ≡ has_error (found_of (map (offer_with tree) offers.now)) }
{
    for offer in offers {
        if is_error(offer.found) {
            return true;
        }
    }
    false
}

/// Appends a copy of a type, if there is one.
pub fn add_copy<S: TypeStore>(
    store: &S,
    alloc: Global,
    ty: &Option<S::Ty>,
    types: &mut Vec<S::Ty>,
) -> Result<(), OutOfMemory>
    requires ty { HasIfAny (S.has store.now) ty.now }
    requires types { All (S.has store.now) types.old.items }
    ensures held { OnOk result (All (S.has store.now) types.new.items) }
    ensures value { OnOk result
        (map S.tree types.new.items ≡ map S.tree types.old.items ++ option_to_list (option_map S.tree ty.now)) }
{
    if let Some(ty) = ty {
        types.push(store.copy(alloc, ty)?)?;
    }
    Ok(())
}

/// Returns the types that an operand flows into, member by member; none if the operation is in error.
pub fn operand_types<S: TypeStore>(
    store: &S,
    alloc: Global,
    offers: &[Offer<S::Ty>],
) -> Result<Vec<S::Ty>, OutOfMemory>
    requires { All (HasOffer (S.has store.now)) offers.now }
    ensures held { IfOk result (λ ts. All (S.has store.now) ts.items) }
    ensures value { IfOk result (λ ts. map S.tree ts.items ≡ operand_types (map (offer_with S.tree) offers.now)) }
{
    let mut types = Vec::new(alloc);
    if is_wrong(offers) {
        return Ok(types);
    }
    for offer in offers {
        add_copy(store, alloc, &offer.takes, &mut types)?;
    }
    Ok(types)
}

/// Returns the value of decimal digits if it is below 256. Reads no digit beyond that limit, since literals may be
/// long.
fn small_number(digits: &str) -> Option<usize>
    ensures { MatchOption result (node_limit ≤ number_behind 0 digits.now) (λ n. n ≡ number_behind 0 digits.now) }
{
    let bytes = digits.as_bytes();
    let mut number = 0;
    for digit in bytes {
        number = 10 * number + usize::from(digit.saturating_sub(b'0'));
        if number >= 256 {
            return None;
        }
    }
    Some(number)
}

/// Returns the value of an int literal below 256, as an index into a tuple. No larger one can matter: a type has at
/// most 256 nodes.
pub(crate) fn literal_index(e: &Expr) -> Option<usize>
    ensures { (bases : Bases) (t : Tree) → nodes t ≤ node_limit
        → index_member bases result t ≡ index_member bases (int_literal (expr_of e.now)) t }
{
    match e {
        Expr::Int(_, digits) => small_number(digits.as_str()),
        _ => None,
    }
}
