//! The item of an iterable.

ghost use Rattle.std.specs.Prelude.{map, IfOk};
ghost use Rattle.pc_types.specs.Shape.{members};
ghost use Rattle.pc_types.specs.Store.{KeepsTypes};
ghost use Rattle.pc_class.specs.Tables.{HasEntries};
ghost use Rattle.pc_rules.specs.Operations.{offers_label, iterate_member};
ghost use Rattle.pc_rules.specs.Computed.Standing.{MeansLabel};

use crate::offers::{Operation, member_offers, offers_label};
use pc_class::ClassTable;
use pc_rules::Label;
use pc_source::OutOfMemory;
use pc_types::{Parents, TypeStore};
use std::alloc::Global;

/// Returns the label of an item of an iterable with this type. Language Reference 8.3 "The for statement".
pub fn item_label<S: TypeStore>(
    store: &mut S,
    alloc: Global,
    parents: &Parents,
    classes: &ClassTable<S::Ty>,
    iterable: &S::Ty,
) -> Result<Label<S::Ty>, OutOfMemory>
    requires iterable { S.has store.old iterable.now }
    requires classes { HasEntries (S.has store.old) classes.now }
    ensures label { IfOk result
        (λ l. MeansLabel S.has S.tree store.new l
        (offers_label parents.now (map (iterate_member parents.now) (members (S.tree iterable.now))))) }
    ensures kept { KeepsTypes S.has store.old store.new }
{
    let operation = Operation::Iterate;
    let offers = member_offers(store, alloc, parents, classes, operation, iterable)?;
    offers_label(store, alloc, parents, &offers)
}
