//! The sentence of a detail.

ghost use Rattle.std.specs.Prelude.{◌≡◌, ◌++◌, OnOk, string_bytes, codes};
ghost use Rattle.pc_detail_texts.specs.Details.{attribute, contain, index};
ghost use Rattle.pc_detail_texts.specs.Sentences.{function_text, callable_text, between_text, operation_text, hint_text};
ghost use Rattle.pc_detail_texts.specs.Sentences.{where_it_is, override_text, error_sentence, doubt, sentence_of};
ghost use Rattle.pc_detail_texts.specs.Sentences.{sink_text};
ghost use Rattle.pc_detail_texts.specs.Shown.{sink_of_value};
ghost use Rattle.pc_detail_texts.specs.Shown.{words, all_words, function_of_value, callable_of_value, operator_of_value};
ghost use Rattle.pc_detail_texts.specs.Shown.{hint_of_value, override_of_value, type_fault_of_value, detail_of_value};

use crate::details::{
    Attribute, AttributeHint, Callable, Detail, Flow, FunctionName, OperatorUse, OverrideFault,
    TypeFault, Unsupported,
};
use crate::phrases::{push_between, push_callable_and, push_operator, push_where};
use crate::pieces::{push_around, push_pair, push_text};
use crate::reasons::{push_flow, push_misfit, push_override, push_sink};
use crate::rules::push_rule_fault;
use pc_source::OutOfMemory;
use pc_tree::Code;
use std::rc::RcStr;

/// Appends the hint about a missing attribute.
fn push_hint(text: &mut String, name: &RcStr, hint: &AttributeHint) -> Result<(), OutOfMemory>
    ensures { OnOk result (string_bytes text.new
        ≡ string_bytes text.old ++ hint_text (words name.now) (hint_of_value hint.now)) }
{
    match hint {
        AttributeHint::Nothing => Ok(()),
        AttributeHint::OnlyCalled => push_around(text, ", but a method ", name, " to call"),
        AttributeHint::Below(class) => push_around(text, ", but its subclass ", class, " has"),
    }
}

/// Appends what is known of an attribute that an object does not have.
fn push_attribute(text: &mut String, missing: &Attribute) -> Result<(), OutOfMemory>
    ensures { OnOk result (string_bytes text.new ≡ string_bytes text.old ++ error_sentence (attribute
        (words missing.now.of.object) (all_words missing.now.of.lacking.items) (words missing.now.name)
        (hint_of_value missing.now.hint))) }
{
    push_pair(
        text,
        "",
        &missing.of.object,
        " has no attribute ",
        &missing.name,
    )?;
    push_where(text, &missing.of)?;
    push_hint(text, &missing.name, &missing.hint)
}

/// Appends that an operator is not defined for its operands.
fn push_undefined(text: &mut String, operator: &OperatorUse) -> Result<(), OutOfMemory>
    ensures { OnOk result (string_bytes text.new ≡ string_bytes text.old
        ++ (operation_text (operator_of_value operator.now) ++ codes " is not defined")) }
{
    push_operator(text, operator)?;
    push_text(text, " is not defined")
}

/// Appends what is said of an object, between two texts, and the members that are at fault.
fn push_lacking(
    text: &mut String,
    before: &str,
    of: &Unsupported,
    after: &str,
) -> Result<(), OutOfMemory>
    ensures { OnOk result (string_bytes text.new ≡ string_bytes text.old ++ (before.now
        ++ (words of.now.object ++ (after.now
        ++ where_it_is (words of.now.object) (all_words of.now.lacking.items))))) }
{
    push_around(text, before, &of.object, after)?;
    push_where(text, of)
}

/// Appends that an object has no items to index with a value of this type, and the members that are at fault.
fn push_no_items(text: &mut String, of: &Unsupported, key: &RcStr) -> Result<(), OutOfMemory>
    ensures { OnOk result (string_bytes text.new ≡ string_bytes text.old
        ++ error_sentence (index (words of.now.object) (all_words of.now.lacking.items) (words key.now))) }
{
    push_pair(text, "", &of.object, " has no items to index with ", key)?;
    push_where(text, of)
}

/// Appends that `in` is not defined for its operands, and the members that are at fault.
fn push_uncontained(text: &mut String, sought: &RcStr, of: &Unsupported) -> Result<(), OutOfMemory>
    ensures { OnOk result (string_bytes text.new ≡ string_bytes text.old
        ++ error_sentence (contain (words sought.now) (words of.now.object) (all_words of.now.lacking.items))) }
{
    push_between(text, sought, "in", &of.object)?;
    push_text(text, " is not defined")?;
    push_where(text, of)
}

/// Appends what is wrong with types that do not fit.
fn push_type_fault(text: &mut String, fault: &TypeFault) -> Result<(), OutOfMemory>
    ensures { OnOk result (string_bytes text.new
        ≡ string_bytes text.old ++ error_sentence (type_fault_of_value fault.now)) }
{
    match fault {
        TypeFault::Flow(flow) => push_flow(text, flow),
        TypeFault::Operator(operator) => push_undefined(text, operator),
        TypeFault::Call(callable, misfit) => push_misfit(text, callable, misfit),
        TypeFault::Attribute(attribute) => push_attribute(text, attribute),
        TypeFault::Index(of, key) => push_no_items(text, of, key),
        TypeFault::Store(of) => push_lacking(text, "items of ", of, " cannot be assigned"),
        TypeFault::Iterate(of) => push_lacking(text, "", of, " cannot be looped over"),
        TypeFault::IterateRange(_) => push_text(text, "this call of range does not fit"),
        TypeFault::Contain(sought, of) => push_uncontained(text, sought, of),
        TypeFault::Length(of) => push_lacking(text, "", of, " has no length"),
        TypeFault::ListTest(name, _) => push_around(
            text,
            "the items of list ",
            name,
            " are not known",
        ),
        TypeFault::Override(above, _, fault) => push_override(text, above, fault),
    }
}

/// Appends that an operator may not be defined for its operands.
fn push_maybe_defined(text: &mut String, operator: &OperatorUse) -> Result<(), OutOfMemory>
    ensures { OnOk result (string_bytes text.new ≡ string_bytes text.old
        ++ (codes "whether " ++ (operation_text (operator_of_value operator.now) ++ codes " is defined"))) }
{
    push_text(text, "whether ")?;
    push_operator(text, operator)?;
    push_text(text, " is defined")
}

/// Appends that a callee may not be one.
fn push_maybe_called(text: &mut String, callable: &Callable) -> Result<(), OutOfMemory>
    ensures { OnOk result (string_bytes text.new ≡ string_bytes text.old
        ++ (codes "whether " ++ (callable_text (callable_of_value callable.now) ++ codes " can be called"))) }
{
    push_text(text, "whether ")?;
    push_callable_and(text, callable, " can be called")
}

/// Appends that `in` may not be defined for its operands.
fn push_maybe_contained(
    text: &mut String,
    sought: &RcStr,
    object: &RcStr,
) -> Result<(), OutOfMemory>
    ensures { OnOk result (string_bytes text.new ≡ string_bytes text.old ++ (codes "whether "
        ++ (between_text (words sought.now) (codes "in") (words object.now) ++ codes " is defined"))) }
{
    push_text(text, "whether ")?;
    push_between(text, sought, "in", object)?;
    push_text(text, " is defined")
}

/// Appends that a method may not fit one above.
fn push_maybe_override(
    text: &mut String,
    above: &FunctionName,
    fault: &OverrideFault,
) -> Result<(), OutOfMemory>
    ensures { OnOk result (string_bytes text.new ≡ string_bytes text.old
        ++ (codes "whether this method fits, since "
        ++ override_text (function_text (function_of_value above.now)) (override_of_value fault.now))) }
{
    push_text(text, "whether this method fits, since ")?;
    push_override(text, above, fault)
}

/// Appends that a value of one type may not go where another type is expected.
fn push_maybe_flow(text: &mut String, flow: &Flow) -> Result<(), OutOfMemory>
    ensures { OnOk result (string_bytes text.new ≡ string_bytes text.old ++ (codes "whether "
        ++ (words flow.now.from ++ (codes " fits "
        ++ sink_text (words flow.now.into) (sink_of_value flow.now.sink))))) }
{
    push_around(text, "whether ", &flow.from, " fits ")?;
    push_sink(text, &flow.into, &flow.sink)
}

/// Appends what cannot be told of types.
fn push_doubt(text: &mut String, fault: &TypeFault) -> Result<(), OutOfMemory>
    ensures { OnOk result (string_bytes text.new
        ≡ string_bytes text.old ++ doubt (type_fault_of_value fault.now)) }
{
    match fault {
        TypeFault::Flow(flow) => push_maybe_flow(text, flow),
        TypeFault::Operator(operator) => push_maybe_defined(text, operator),
        TypeFault::Call(callable, _) => push_maybe_called(text, callable),
        TypeFault::Attribute(a) => {
            push_pair(text, "whether ", &a.of.object, " has attribute ", &a.name)
        },
        TypeFault::Index(of, _) => push_around(text, "whether ", &of.object, " has items"),
        TypeFault::Store(of) => {
            push_around(text, "whether items of ", &of.object, " can be assigned")
        }
        TypeFault::Iterate(of) => {
            push_around(text, "whether ", &of.object, " can be looped over")
        }
        TypeFault::IterateRange(_) => push_text(text, "what this call of range gives"),
        TypeFault::Contain(sought, of) => push_maybe_contained(text, sought, &of.object),
        TypeFault::Length(of) => push_around(text, "whether ", &of.object, " has a length"),
        TypeFault::ListTest(name, _) => push_around(text, "what the items of list ", name, " are"),
        TypeFault::Override(above, _, fault) => push_maybe_override(text, above, fault),
    }
}

/// Appends what is wrong at an error.
fn push_error(text: &mut String, detail: &Detail) -> Result<(), OutOfMemory>
    ensures { OnOk result (string_bytes text.new
        ≡ string_bytes text.old ++ error_sentence (detail_of_value detail.now)) }
{
    match detail {
        Detail::Types(fault) => push_type_fault(text, fault),
        Detail::Rule(fault) => push_rule_fault(text, fault),
    }
}

/// Appends the sentence of a detail of a finding with this code: what is wrong at an error, or what cannot be told at a
/// dynamic place.
///
/// # Errors
///
/// `OutOfMemory` if an allocation failed.
#[tactic(auto, using(crate::proofs::Cases::rule_doubt))]
pub fn push_sentence(text: &mut String, code: Code, detail: &Detail) -> Result<(), OutOfMemory>
    ensures { OnOk result (string_bytes text.new
        ≡ string_bytes text.old ++ sentence_of code (detail_of_value detail.now)) }
{
    if code.is_error() {
        return push_error(text, detail);
    }
    push_text(text, "cannot tell ")?;
    match detail {
        Detail::Types(fault) => push_doubt(text, fault),
        Detail::Rule(fault) => push_rule_fault(text, fault),
    }
}
