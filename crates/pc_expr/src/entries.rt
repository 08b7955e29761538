//! The seats of the entries of a dict display, and its label.

ghost use Rattle.std.specs.Prelude.{map, All, IfOk};
ghost use Rattle.std.specs.Option.{option_map};
ghost use Rattle.pc_types.specs.Computed.{static_test, assignable_test};
ghost use Rattle.pc_types.specs.Store.{KeepsTypes};
ghost use Rattle.pc_flow.specs.Stored.{declared_of};
ghost use Rattle.pc_rules.specs.Lawful.{dict_parts, members_of_expected, key_seat, value_seat};
ghost use Rattle.pc_rules.specs.Computed.Expressions.{dict_label};
ghost use Rattle.pc_rules.specs.Computed.Standing.{context_with, HasIfAny, MeansLabel};
ghost use Rattle.pc_rules.specs.Computed.ModuleParents.{class_parents};
ghost use Rattle.pc_calls.specs.JudgedCalls.{IsSeat};
ghost use Rattle.pc_expr.specs.Internal.Seats.{AreEntrySeats};

use crate::items::{nowhere, seat_of_type};
use pc_calls::Seat;
use pc_operations::{dict_label, dict_parts};
use pc_rules::{ExprContext, Label};
use pc_source::OutOfMemory;
use pc_types::TypeStore;
use std::alloc::Global;

/// The seats of the keys and of the values of a dict display.
#[derive(Drop)]
pub(crate) struct EntrySeats<Ty: Drop> {
    pub key: Seat<Ty>,
    pub value: Seat<Ty>,
}

/// The types of the keys and of the values of a dict display.
#[derive(Drop)]
pub(crate) struct EntryTypes<Ty: Drop> {
    pub keys: Vec<Ty>,
    pub values: Vec<Ty>,
}

/// Returns the seats of the entries of a dict display with this expected type: those of the expected dict, or seats
/// without expected types and flows.
pub(crate) fn dict_seats<S: TypeStore>(
    store: &S,
    alloc: Global,
    want: &Option<S::Ty>,
) -> Result<EntrySeats<S::Ty>, OutOfMemory>
    requires { HasIfAny (S.has store.now) want.now }
    ensures { IfOk result (λ s.
        AreEntrySeats S.has S.tree store.now s
        (key_seat (dict_parts (members_of_expected (option_map S.tree want.now))))
        (value_seat (dict_parts (members_of_expected (option_map S.tree want.now))))) }
{
    match dict_parts(store, alloc, want)? {
        None => Ok(EntrySeats {
            key: nowhere(alloc),
            value: nowhere(alloc),
        }),
        Some(parts) => Ok(EntrySeats {
            key: seat_of_type(store, alloc, parts.key)?,
            value: seat_of_type(store, alloc, parts.value)?,
        }),
    }
}

/// Returns the label of a dict display with this expected type, given the types of its keys and values.
pub(crate) fn expected_dict_label<S: TypeStore>(
    store: &mut S,
    alloc: Global,
    context: &ExprContext<'_, S::Ty>,
    want: &Option<S::Ty>,
    types: &EntryTypes<S::Ty>,
) -> Result<Label<S::Ty>, OutOfMemory>
    requires want { HasIfAny (S.has store.old) want.now }
    requires keys { All (S.has store.old) types.now.keys.items }
    requires values { All (S.has store.old) types.now.values.items }
    ensures value { IfOk result
        (λ l. MeansLabel S.has S.tree store.new l
        (dict_label (context_with S.tree context.now) (declared_of S.tree context.now.declared.now)
        (static_test (class_parents context.now.globals.now))
        (assignable_test (class_parents context.now.globals.now))
        (dict_parts (members_of_expected (option_map S.tree want.now))) (map S.tree types.now.keys.items)
        (map S.tree types.now.values.items))) }
    ensures kept { KeepsTypes S.has store.old store.new }
{
    let parts = dict_parts(store, alloc, want)?;
    dict_label(
        store,
        alloc,
        context.globals.outline.parents,
        &parts,
        &types.keys,
        &types.values,
    )
}
