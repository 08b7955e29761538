//! A call of `range` as the iterable of a `for`.

ghost use Rattle.std.specs.Prelude.{◌≡◌, IfOk};
ghost use Rattle.pc_tree.specs.Lists.{exprs_of_list, keywords_of_list};
ghost use Rattle.pc_types.specs.Store.{KeepsTypes};
ghost use Rattle.pc_rules.specs.Calls.{arguments_given, is_range, range_offers, range_item};
ghost use Rattle.pc_rules.specs.Computed.Standing.{MeansLabel};
ghost use Rattle.pc_calls.specs.JudgedCalls.{given_with, AreCallOffers};

use crate::arguments::Given;
use crate::call_offers::{CallOffer, call_of_builtin, push_offer};
use crate::given::given;
use crate::params::is_suited_by;
use pc_rules::Label;
use pc_scope::{Builtin, NameMeaning};
use pc_source::OutOfMemory;
use pc_tree::{Code, Expr, Keys, KeywordArgument};
use pc_types::TypeStore;
use std::alloc::Global;

/// Returns whether a name with this meaning is the built-in `range`. Library reference, "Built-in Functions".
pub fn is_range(meaning: NameMeaning) -> bool
    ensures { result ≡ is_range meaning }
{
    matches!(meaning, NameMeaning::Builtin(Builtin::Range))
}

/// Returns the result of a call of `range` as the iterable of a `for`: it takes one `int`. Library reference, "Built-in
/// Functions".
pub fn range_offers<'t, S: TypeStore>(
    store: &mut S,
    alloc: Global,
    given: &Given,
) -> Result<Vec<CallOffer<'t, S::Ty>>, OutOfMemory>
    ensures offers { IfOk result
        (λ os. AreCallOffers S.has S.tree store.new os.items (range_offers (given_with given.now))) }
    ensures kept { KeepsTypes S.has store.old store.new }
{
    let mut types = Vec::new(alloc);
    types.push(store.int(alloc)?)?;
    let object = store.object(alloc)?;
    let mut offers = Vec::new(alloc);
    let offer = call_of_builtin(store, alloc, given, types, object)?;
    push_offer(&mut offers, offer)?;
    Ok(offers)
}

/// Returns the label of an item of a call of `range` with these arguments: `int`, or `Any` with A5 if they do not suit.
/// Own rule of the profile.
pub fn range_item<S: TypeStore>(
    store: &mut S,
    alloc: Global,
    keys: Keys,
    arguments: &[Expr],
    by_name: &[KeywordArgument],
) -> Result<Label<S::Ty>, OutOfMemory>
    ensures label { IfOk result
        (λ l. MeansLabel S.has S.tree store.new l
        (range_item (arguments_given (exprs_of_list arguments.now) (keywords_of_list by_name.now)))) }
    ensures kept { KeepsTypes S.has store.old store.new }
{
    let given = given(alloc, keys, arguments, by_name)?;
    let mut codes = Vec::new(alloc);
    if is_suited_by(&given, 1) {
        let ty = store.int(alloc)?;
        return Ok(Label { ty, codes });
    }
    codes.push(Code::A5)?;
    let ty = store.any(alloc)?;
    Ok(Label { ty, codes })
}
