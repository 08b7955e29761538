//! Callees: names and values that are called.

ghost use Rattle.std.specs.Prelude.{◌≡◌, ◌∷◌, [], IfOk, if◌then◌else◌};
ghost use Rattle.pc_tree.specs.declared.code.Code.TheVariants.{E14};
ghost use Rattle.pc_types.specs.Store.{KeepsTypes};
ghost use Rattle.pc_rules.specs.Operations.{Label as LabelOf, in_error};
ghost use Rattle.pc_rules.specs.Computed.Findings.{brief};
ghost use Rattle.pc_rules.specs.Calls.{plain_call, fails_at_call, value_callee, good_callee, own_callee};
ghost use Rattle.pc_rules.specs.Calls.{builtin_callee};
ghost use Rattle.pc_rules.specs.Computed.Standing.{label_with};
ghost use Rattle.pc_calls.specs.JudgedCalls.{given_with, offer_called, rule_of, HasCallOffer, IsCallee};

use crate::arguments::{Given, is_one, is_two};
use crate::call_offers::{
    CallOffer, CallRule, fails_at_call, plain_call, push_offer, push_value_offers,
};
use pc_rules::{Label, in_error};
use pc_scope::Builtin;
use pc_source::OutOfMemory;
use pc_tree::Code;
use pc_types::TypeStore;
use std::alloc::Global;

/// A callee: its label, the rule of its call, and the result of the call on each member, none for a rule of its own.
#[derive(Drop)]
pub struct TypedCallee<'t, Ty: Drop> {
    pub label: Label<Ty>,
    pub rule: CallRule,
    pub offers: Vec<CallOffer<'t, Ty>>,
}

/// Returns the callee that is a value with this label, called on each member of its type.
pub fn callee_of_value<'t, S: TypeStore>(
    store: &mut S,
    alloc: Global,
    label: Label<S::Ty>,
) -> Result<TypedCallee<'t, S::Ty>, OutOfMemory>
    requires { S.has store.old label.ty }
    ensures callee { (m : LabelOf) → label_with S.tree label ≡ brief m
        → IfOk result (λ c. IsCallee S.has S.tree store.new c (value_callee m)) }
    ensures kept { KeepsTypes S.has store.old store.new }
{
    let mut offers = Vec::new(alloc);
    push_value_offers(store, alloc, &label.ty, &mut offers)?;
    Ok(TypedCallee {
        label,
        rule: CallRule::Member,
        offers,
    })
}

/// Returns the callee in error with this code, called as a value of type `Any`.
pub fn callee_in_error<'t, S: TypeStore>(
    store: &mut S,
    alloc: Global,
    code: Code,
) -> Result<TypedCallee<'t, S::Ty>, OutOfMemory>
    ensures callee { IfOk result (λ c. IsCallee S.has S.tree store.new c (value_callee (in_error code))) }
    ensures kept { KeepsTypes S.has store.old store.new }
{
    let label = in_error(store, alloc, code)?;
    callee_of_value(store, alloc, label)
}

/// Returns the callee without codes whose call has this result.
pub fn good_callee<'t, S: TypeStore>(
    store: &mut S,
    alloc: Global,
    offer: CallOffer<'t, S::Ty>,
) -> Result<TypedCallee<'t, S::Ty>, OutOfMemory>
    requires { HasCallOffer (S.has store.old) offer }
    ensures callee { IfOk result
        (λ c. IsCallee S.has S.tree store.new c (good_callee (offer_called S.tree offer.entry ∷ []))) }
    ensures kept { KeepsTypes S.has store.old store.new }
{
    let any = store.any(alloc)?;
    let mut offers = Vec::new(alloc);
    push_offer(&mut offers, offer)?;
    Ok(TypedCallee {
        label: Label {
            ty: any,
            codes: Vec::new(alloc),
        },
        rule: CallRule::Member,
        offers,
    })
}

/// Returns the callee whose call has this rule of its own; its arguments flow nowhere.
fn own_callee<'t, S: TypeStore>(
    store: &mut S,
    alloc: Global,
    rule: CallRule,
) -> Result<TypedCallee<'t, S::Ty>, OutOfMemory>
    ensures callee { IfOk result (λ c. IsCallee S.has S.tree store.new c (own_callee (rule_of rule))) }
    ensures kept { KeepsTypes S.has store.old store.new }
{
    let any = store.any(alloc)?;
    Ok(TypedCallee {
        label: Label {
            ty: any,
            codes: Vec::new(alloc),
        },
        rule,
        offers: Vec::new(alloc),
    })
}

/// Returns the callee whose call gives a type if the arguments suit, else fails with E14.
fn plain_callee<'t, S: TypeStore>(
    store: &mut S,
    alloc: Global,
    suits: bool,
    gives: S::Ty,
) -> Result<TypedCallee<'t, S::Ty>, OutOfMemory>
    requires { S.has store.old gives }
    ensures callee { IfOk result
        (λ c. IsCallee S.has S.tree store.new c
        (good_callee ((if suits then plain_call (S.tree gives) else fails_at_call E14) ∷ []))) }
    ensures kept { KeepsTypes S.has store.old store.new }
{
    if suits {
        let callee = good_callee(store, alloc, plain_call(gives))?;
        return Ok(callee);
    }
    failing_callee(store, alloc, Code::E14)
}

/// Returns the callee whose call fails with this code.
fn failing_callee<'t, S: TypeStore>(
    store: &mut S,
    alloc: Global,
    code: Code,
) -> Result<TypedCallee<'t, S::Ty>, OutOfMemory>
    ensures callee { IfOk result (λ c. IsCallee S.has S.tree store.new c (good_callee (fails_at_call code ∷ []))) }
    ensures kept { KeepsTypes S.has store.old store.new }
{
    let offer = fails_at_call(store, alloc, code)?;
    good_callee(store, alloc, offer)
}

/// Returns a built-in as a callee. A reserved name that is no value is E20. Own rule of the profile.
pub fn callee_of_builtin<'t, S: TypeStore>(
    store: &mut S,
    alloc: Global,
    given: &Given,
    builtin: Builtin,
) -> Result<TypedCallee<'t, S::Ty>, OutOfMemory>
    ensures callee { IfOk result
        (λ c. IsCallee S.has S.tree store.new c (builtin_callee (given_with given.now) builtin)) }
    ensures kept { KeepsTypes S.has store.old store.new }
{
    match builtin {
        Builtin::Print => {
            let none = store.none(alloc)?;
            plain_callee(store, alloc, given.named.is_empty(), none)
        }
        Builtin::Str => {
            let text = store.str(alloc)?;
            plain_callee(store, alloc, is_one(given), text)
        }
        Builtin::Len if is_one(given) => own_callee(store, alloc, CallRule::Length),
        Builtin::Len => failing_callee(store, alloc, Code::E14),
        Builtin::IsInstance if is_two(given) => own_callee(store, alloc, CallRule::Test),
        Builtin::IsInstance => failing_callee(store, alloc, Code::E14),
        Builtin::Range if is_one(given) => failing_callee(store, alloc, Code::E27),
        Builtin::Range => failing_callee(store, alloc, Code::E14),
        Builtin::Any
        | Builtin::Annotations
        | Builtin::Bool
        | Builtin::Dataclass
        | Builtin::Dict
        | Builtin::Int
        | Builtin::List
        | Builtin::Object
        | Builtin::Tuple => callee_in_error(store, alloc, Code::E20),
    }
}
