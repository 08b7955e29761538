//! The labels of displays, and the findings in their items and entries.
#![tactic(auto, using(pc_rules::proofs::Kept::stands_further, pc_rules::proofs::TypingStates::goes_further))]

ghost use Rattle.std.specs.Prelude.{◌≡◌, IfOk, OnOk, map, All};
ghost use Rattle.std.specs.Option.{option_map};
ghost use Rattle.pc_tree.specs.Tree.{expr_of};
ghost use Rattle.pc_tree.specs.Lists.{exprs_of_list, entries_of_list};
ghost use Rattle.pc_rules.specs.Computed.Standing.{standing_of, label_in, parts_find, types_in, items_find};
ghost use Rattle.pc_rules.specs.Computed.Standing.{entries_find};
ghost use Rattle.pc_expr.specs.Internal.Seats.{seats_of, seat_with, HasSeats, HasEntrySeats, AreEntryTypes};
ghost use Rattle.pc_expr.specs.Internal.Forms.{IsDisplay};
ghost use Rattle.pc_rules.specs.Computed.TypingStates.{AddsNotes, StateKept, HoldsIfAny, IsLabel, HoldsAll};

use crate::entries::{EntrySeats, EntryTypes, dict_seats, expected_dict_label};
use crate::items::{Seats, expected_list_label, list_seats, seat_at, tuple_seats};
use crate::typing::type_seated;
use pc_flow::Env;
use pc_operations::tuple_label;
use pc_rules::{ExprContext, Label, TypingState};
use pc_source::OutOfMemory;
use pc_tree::{Entry, Expr};
use pc_types::TypeStore;

/// Types a tuple, list or dict display, with `want` as its expected type. Appends the findings in its items and returns
/// its label. Language Reference 6.2 "Atoms".
#[cycle(typing)]
pub(crate) fn type_display<S: TypeStore>(
    state: &mut TypingState<'_, S>,
    context: &ExprContext<'_, S::Ty>,
    env: &Env<S::Ty>,
    want: &Option<S::Ty>,
    e: &Expr,
) -> Result<Label<S::Ty>, OutOfMemory>
    requires given { HoldsAll S.TypeStore state.old context.now env.now }
    requires want { HoldsIfAny S.TypeStore state.old want.now }
    requires form { IsDisplay e.now }
    ensures labelled { IfOk result
        (λ l. IsLabel S.TypeStore state.new l
        (label_in (standing_of S.tree context.now env.now) (option_map S.tree want.now) (expr_of e.now))) }
    ensures found { OnOk result (AddsNotes state.old state.new
        (parts_find (standing_of S.tree context.now env.now) (option_map S.tree want.now) (expr_of e.now))) }
    ensures goes_on { StateKept S.TypeStore state.old state.new }
{
    match e {
        Expr::Tuple(_, items) => {
            let seats = tuple_seats(state.store, state.alloc, want, items.len())?;
            let types = type_items(state, context, env, &seats, items)?;
            tuple_label(state.store, state.alloc, &types)
        }
        Expr::List(_, items) => {
            let seats = list_seats(state.store, state.alloc, want)?;
            let types = type_items(state, context, env, &seats, items)?;
            expected_list_label(
                state.store,
                state.alloc,
                context.globals.outline.parents,
                want,
                &types,
            )
        }
        Expr::Dict(_, entries) => {
            let seats = dict_seats(state.store, state.alloc, want)?;
            let types = type_entries(state, context, env, &seats, entries)?;
            expected_dict_label(state.store, state.alloc, context, want, &types)
        }
        // `form` leaves no other form; the recursion ends by the size of the whole expression.
        _ => unreachable!(),
    }
}

/// Types the items of a display, each in its seat. Appends the findings in them and of their flows, and returns their
/// types in order.
#[cycle(typing)]
fn type_items<S: TypeStore>(
    state: &mut TypingState<'_, S>,
    context: &ExprContext<'_, S::Ty>,
    env: &Env<S::Ty>,
    seats: &Seats<S::Ty>,
    items: &[Expr],
) -> Result<Vec<S::Ty>, OutOfMemory>
    requires given { HoldsAll S.TypeStore state.old context.now env.now }
    requires seats { HasSeats (S.has state.old.store.now) seats.now }
    ensures held { IfOk result (λ ts. All (S.has state.new.store.now) ts.items) }
    ensures typed { IfOk result
        (λ ts. map S.tree ts.items
        ≡ types_in (standing_of S.tree context.now env.now) (seats_of S.tree seats.now)
        (exprs_of_list items.now)) }
    ensures found { OnOk result (AddsNotes state.old state.new
        (items_find (standing_of S.tree context.now env.now) (seats_of S.tree seats.now)
        (exprs_of_list items.now))) }
    ensures goes_on { StateKept S.TypeStore state.old state.new }
{
    let mut types = Vec::new(state.alloc);
    for item in items {
        let seat = seat_at(state.store, state.alloc, seats, types.len())?;
        let label = type_seated(state, context, env, &seat, item)?;
        types.push(label.ty)?;
    }
    Ok(types)
}

/// Types the keys and values of a dict display, each in its seat. Appends the findings in them and of their flows, and
/// returns their types in order.
#[cycle(typing)]
fn type_entries<S: TypeStore>(
    state: &mut TypingState<'_, S>,
    context: &ExprContext<'_, S::Ty>,
    env: &Env<S::Ty>,
    seats: &EntrySeats<S::Ty>,
    entries: &[Entry],
) -> Result<EntryTypes<S::Ty>, OutOfMemory>
    requires given { HoldsAll S.TypeStore state.old context.now env.now }
    requires seats { HasEntrySeats (S.has state.old.store.now) seats.now }
    ensures typed { IfOk result
        (λ t. AreEntryTypes S.has S.tree state.new.store.now (standing_of S.tree context.now env.now) t
        (seat_with S.tree seats.now.key) (seat_with S.tree seats.now.value) (entries_of_list entries.now)) }
    ensures found { OnOk result (AddsNotes state.old state.new
        (entries_find (standing_of S.tree context.now env.now) (seat_with S.tree seats.now.key)
        (seat_with S.tree seats.now.value) (entries_of_list entries.now))) }
    ensures goes_on { StateKept S.TypeStore state.old state.new }
{
    let mut keys = Vec::new(state.alloc);
    let mut values = Vec::new(state.alloc);
    for entry in entries {
        let key = type_seated(state, context, env, &seats.key, &entry.key)?;
        let value = type_seated(state, context, env, &seats.value, &entry.value)?;
        keys.push(key.ty)?;
        values.push(value.ty)?;
    }
    Ok(EntryTypes { keys, values })
}
