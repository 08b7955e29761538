//! The seats of the items of a display: their expected types, and the types that they flow into.

ghost use Rattle.std.specs.Prelude.{◌≡◌, ◌||◌, ◌&&◌, nat_eq, Some, None, [], map, All, IfOk};
ghost use Rattle.std.specs.Option.{option_map};
ghost use Rattle.pc_types.specs.Store.{KeepsTypes};
ghost use Rattle.pc_rules.specs.Context.{is_early};
ghost use Rattle.pc_rules.specs.Lawful.{item_seat, part_seat, list_item, tuple_parts, members_of_expected, list_label};
ghost use Rattle.pc_rules.specs.Computed.Standing.{HasIfAny, MeansLabel};
ghost use Rattle.pc_calls.specs.JudgedCalls.{IsSeat};
ghost use Rattle.pc_expr.specs.Internal.Seats.{seats_of, HasSeats};

use pc_calls::Seat;
use pc_operations::{list_item, list_label, tuple_parts};
use pc_rules::{Label, is_early};
use pc_source::OutOfMemory;
use pc_tree::Code;
use pc_types::{Parents, TypeStore};
use std::alloc::Global;

/// The seats of the items of a display: one expected type for all of a list, or one for each of a tuple.
#[derive(Drop)]
pub(crate) enum Seats<Ty: Drop> {
    Same(Option<Ty>),
    Parts(Vec<Ty>),
}

/// The types of the arguments of a call, and whether the second argument is E03: an initializer names it too early.
#[derive(Drop)]
pub(crate) struct Typed<Ty: Drop> {
    pub types: Vec<Ty>,
    pub early: bool,
}

/// Returns whether the second of several expressions is E03. `early` is the answer so far, `codes` are those of the
/// expression at `position`.
pub(crate) fn is_second_early(position: usize, codes: &[Code], early: bool) -> bool
    ensures { result ≡ (early || (nat_eq position 1 && is_early codes.now)) }
{
    let is_second = position == 1;
    let is_early = is_early(codes);
    early || is_second && is_early
}

/// Returns a seat without an expected type, which flows nowhere.
pub(crate) fn nowhere<Ty: Drop>(alloc: Global) -> Seat<Ty>
    ensures want { result.want ≡ None }
    ensures into { result.into.items ≡ [] }
{
    let into = Vec::new(alloc);
    Seat { want: None, into }
}

/// Returns the seat of an item of a display: this type is expected of the item, and the item flows into it.
pub(crate) fn seat_of_type<S: TypeStore>(
    store: &S,
    alloc: Global,
    ty: S::Ty,
) -> Result<Seat<S::Ty>, OutOfMemory>
    requires { S.has store.now ty }
    ensures { IfOk result (λ s. IsSeat S.has S.tree store.now s (item_seat (Some (S.tree ty)))) }
{
    let mut into = Vec::new(alloc);
    into.push(store.copy(alloc, &ty)?)?;
    let want = Some(ty);
    Ok(Seat { want, into })
}

/// Returns the seat of an item of a display: with a type, that type is expected of the item and the item flows into it;
/// without one, nothing is expected and the item flows nowhere.
fn item_seat<S: TypeStore>(
    store: &S,
    alloc: Global,
    ty: &Option<S::Ty>,
) -> Result<Seat<S::Ty>, OutOfMemory>
    requires { HasIfAny (S.has store.now) ty.now }
    ensures { IfOk result (λ s. IsSeat S.has S.tree store.now s (item_seat (option_map S.tree ty.now))) }
{
    match ty {
        None => Ok(nowhere(alloc)),
        Some(ty) => {
            let copy = store.copy(alloc, ty)?;
            seat_of_type(store, alloc, copy)
        }
    }
}

/// Returns the seat of an item of a tuple: the type at its position is expected, and it flows nowhere.
fn part_seat<S: TypeStore>(
    store: &S,
    alloc: Global,
    parts: &[S::Ty],
    position: usize,
) -> Result<Seat<S::Ty>, OutOfMemory>
    requires { All (S.has store.now) parts.now }
    ensures { IfOk result (λ s. IsSeat S.has S.tree store.now s (part_seat (map S.tree parts.now) position)) }
{
    let into = Vec::new(alloc);
    if position >= parts.len() {
        return Ok(Seat { want: None, into });
    }
    let want = Some(store.copy(alloc, &parts[position])?);
    Ok(Seat { want, into })
}

/// Returns the seat of the item at a position.
pub(crate) fn seat_at<S: TypeStore>(
    store: &S,
    alloc: Global,
    seats: &Seats<S::Ty>,
    position: usize,
) -> Result<Seat<S::Ty>, OutOfMemory>
    requires { HasSeats (S.has store.now) seats.now }
    ensures { IfOk result (λ s. IsSeat S.has S.tree store.now s (seats_of S.tree seats.now position)) }
{
    match seats {
        Seats::Same(ty) => item_seat(store, alloc, ty),
        Seats::Parts(parts) => part_seat(store, alloc, parts, position),
    }
}

/// Returns the seats of the items of a list display with this expected type.
pub(crate) fn list_seats<S: TypeStore>(
    store: &S,
    alloc: Global,
    want: &Option<S::Ty>,
) -> Result<Seats<S::Ty>, OutOfMemory>
    requires { HasIfAny (S.has store.now) want.now }
    ensures held { IfOk result (λ s. HasSeats (S.has store.now) s) }
    ensures value { IfOk result
        (λ s. seats_of S.tree s ≡ (λ i. item_seat (list_item (members_of_expected (option_map S.tree want.now))))) }
{
    let item = list_item(store, alloc, want)?;
    Ok(Seats::Same(item))
}

/// Returns the seats of the items of a tuple display of this length with this expected type.
pub(crate) fn tuple_seats<S: TypeStore>(
    store: &S,
    alloc: Global,
    want: &Option<S::Ty>,
    count: usize,
) -> Result<Seats<S::Ty>, OutOfMemory>
    requires { HasIfAny (S.has store.now) want.now }
    ensures held { IfOk result (λ s. HasSeats (S.has store.now) s) }
    ensures value { IfOk result
        (λ s. seats_of S.tree s ≡ part_seat (tuple_parts count (members_of_expected (option_map S.tree want.now)))) }
{
    let parts = tuple_parts(store, alloc, count, want)?;
    Ok(Seats::Parts(parts))
}

/// Returns the label of a list display with this expected type, given the types of its items.
pub(crate) fn expected_list_label<S: TypeStore>(
    store: &mut S,
    alloc: Global,
    parents: &Parents,
    want: &Option<S::Ty>,
    types: &[S::Ty],
) -> Result<Label<S::Ty>, OutOfMemory>
    requires want { HasIfAny (S.has store.old) want.now }
    requires types { All (S.has store.old) types.now }
    ensures value { IfOk result
        (λ l. MeansLabel S.has S.tree store.new l
        (list_label parents.now (list_item (members_of_expected (option_map S.tree want.now))) (map S.tree types.now))) }
    ensures kept { KeepsTypes S.has store.old store.new }
{
    let item = list_item(store, alloc, want)?;
    list_label(store, alloc, parents, &item, types)
}
