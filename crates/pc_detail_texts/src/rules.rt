//! Sentences of faults against rules.

ghost use Rattle.std.specs.Prelude.{◌≡◌, ◌++◌, OnOk, string_bytes, codes};
ghost use Rattle.std.specs.Option.{option_map};
ghost use Rattle.pc_detail_texts.specs.Details.{not_a_value, keys, no_test, unknown_name, early};
ghost use Rattle.pc_detail_texts.specs.Details.{base, field_order, union, default_order};
ghost use Rattle.pc_detail_texts.specs.Sentences.{function_text, elsewhere_text, earlier_text, error_sentence, no_main_text};
ghost use Rattle.pc_detail_texts.specs.Shown.{words, all_words, function_of_value, no_value_of_value, elsewhere_of_value};
ghost use Rattle.pc_detail_texts.specs.Shown.{early_of_value, clash_of_value, earlier_of_value, main_of_value};
ghost use Rattle.pc_detail_texts.specs.Shown.{rule_fault_of_value};
ghost use Rattle.pc_source.specs.declared.place.Place.{Place};

use crate::details::{
    Clash, Earlier, Early, Elsewhere, FunctionName, LateDefault, NoMain, NoValue, RuleFault,
};
use crate::phrases::{leaving_words, push_function_and, push_function_then, push_joined};
use crate::pieces::{
    push_around, push_both, push_named, push_number_around, push_pair, push_pair_around, push_text,
};
use crate::reasons::push_annotation;
use pc_source::{OutOfMemory, Place};
use std::rc::RcStr;

/// Appends a method, and what is said of it.
fn push_method(text: &mut String, method: &FunctionName, after: &str) -> Result<(), OutOfMemory>
    ensures { OnOk result (string_bytes text.new ≡ string_bytes text.old
        ++ (codes "method " ++ (function_text (function_of_value method.now) ++ after.now))) }
{
    push_text(text, "method ")?;
    push_function_and(text, method, after)
}

/// Appends the meaning of a name that is not a value.
fn push_no_value(text: &mut String, meaning: &NoValue) -> Result<(), OutOfMemory>
    ensures { OnOk result (string_bytes text.new
        ≡ string_bytes text.old ++ error_sentence (not_a_value (no_value_of_value meaning.now))) }
{
    match meaning {
        NoValue::Function(name) => push_around(text, "function ", name, " is no value"),
        NoValue::Class(name) => push_around(text, "class ", name, " is no value"),
        NoValue::Reserved(name) => push_around(text, "the reserved name ", name, " is no value"),
        NoValue::Method(method) => push_method(text, method, " is no value"),
    }
}

/// Appends what is wrong with the keys of a dict.
fn push_keys(text: &mut String, types: &[RcStr]) -> Result<(), OutOfMemory>
    ensures { OnOk result (string_bytes text.new
        ≡ string_bytes text.old ++ error_sentence (keys (all_words types.now))) }
{
    if types.is_empty() {
        return push_text(text, "the type of an empty dict is not known here");
    }
    push_text(text, "the keys are ")?;
    push_joined(text, ", ", types)?;
    push_text(text, ", not all int or all str")
}

/// Appends what `isinstance` cannot test for.
fn push_no_test(text: &mut String, name: &Option<RcStr>) -> Result<(), OutOfMemory>
    ensures { OnOk result (string_bytes text.new
        ≡ string_bytes text.old ++ error_sentence (no_test (option_map words name.now))) }
{
    match name {
        None => {
            push_text(
                text,
                "isinstance can test for int, str, bool, list or a class alone",
            )
        }
        Some(name) => push_named(text, "isinstance cannot test for ", name),
    }
}

/// Returns the words for the earlier binding of a repeated name.
fn earlier_words(earlier: Earlier) -> &'static str
    ensures { result.now ≡ earlier_text (earlier_of_value earlier) }
{
    match earlier {
        Earlier::Item(_) => " is already bound",
        Earlier::Parameter(_) => " is already a parameter",
        Earlier::Receiver => " is already the first parameter",
        Earlier::Argument(_) => " is already given",
    }
}

/// Appends that another function binds a name.
fn push_local_of(
    text: &mut String,
    name: &RcStr,
    function: &FunctionName,
) -> Result<(), OutOfMemory>
    ensures { OnOk result (string_bytes text.new ≡ string_bytes text.old
        ++ (codes ", but " ++ (function_text (function_of_value function.now)
        ++ (codes " has a local " ++ words name.now)))) }
{
    push_text(text, ", but ")?;
    push_function_then(text, function, " has a local ", name)
}

/// Appends the place where an unknown name is bound elsewhere.
fn push_elsewhere(text: &mut String, name: &RcStr, elsewhere: &Elsewhere) -> Result<(), OutOfMemory>
    ensures { OnOk result (string_bytes text.new
        ≡ string_bytes text.old ++ elsewhere_text (words name.now) (elsewhere_of_value elsewhere.now)) }
{
    match elsewhere {
        Elsewhere::Nowhere => Ok(()),
        Elsewhere::InClass(class) => push_pair(text, ", but ", class, " has a member ", name),
        Elsewhere::InFunction(function, _) => push_local_of(text, name, function),
        Elsewhere::NotImported => push_text(text, ", since no header imports it"),
    }
}

/// Appends that a name means nothing, and where else it is bound.
fn push_unknown(text: &mut String, name: &RcStr, elsewhere: &Elsewhere) -> Result<(), OutOfMemory>
    ensures { OnOk result (string_bytes text.new ≡ string_bytes text.old
        ++ error_sentence (unknown_name (words name.now) (elsewhere_of_value elsewhere.now))) }
{
    push_around(text, "nothing named ", name, " is known here")?;
    push_elsewhere(text, name, elsewhere)
}

/// Appends the name or callee that an initializer uses too early.
fn push_early(text: &mut String, cause: &Early) -> Result<(), OutOfMemory>
    ensures { OnOk result (string_bytes text.new
        ≡ string_bytes text.old ++ error_sentence (early (early_of_value cause.now))) }
{
    match cause {
        Early::Function(name) => push_named(text, "a constant cannot use function ", name),
        Early::Name(name, _) => push_around(text, "", name, " is not defined yet"),
        Early::Callee => push_text(text, "a constant cannot call a method or a value"),
    }
}

/// Appends that a base is no class, or none yet.
fn push_base(text: &mut String, name: &RcStr, later: Option<Place>) -> Result<(), OutOfMemory>
    ensures { OnOk result (string_bytes text.new
        ≡ string_bytes text.old ++ error_sentence (base (words name.now) later)) }
{
    match later {
        None => push_around(text, "", name, " is no class"),
        Some(_) => push_around(text, "class ", name, " is not defined yet"),
    }
}

/// Appends that a field without a default comes after one with a default.
fn push_field_order(text: &mut String, late: &LateDefault, class: &RcStr) -> Result<(), OutOfMemory>
    ensures { OnOk result (string_bytes text.new ≡ string_bytes text.old ++ error_sentence
        (field_order (words late.now.name) (words class.now) (words late.now.before) late.now.at)) }
{
    push_around(text, "field ", &late.name, " has no default, but field ")?;
    push_pair_around(text, "", &late.before, " of ", class, " before it has one")
}

/// Appends that a parameter without a default comes after one with a default.
fn push_default_order(text: &mut String, late: &LateDefault) -> Result<(), OutOfMemory>
    ensures { OnOk result (string_bytes text.new ≡ string_bytes text.old ++ error_sentence
        (default_order (words late.now.name) (words late.now.before) late.now.at)) }
{
    let between = " has no default, but parameter ";
    push_pair_around(
        text,
        "parameter ",
        &late.name,
        between,
        &late.before,
        " before it has one",
    )
}

/// Appends the reason why parts do not make a union.
fn push_clash(text: &mut String, clash: &Clash) -> Result<(), OutOfMemory>
    ensures { OnOk result (string_bytes text.new
        ≡ string_bytes text.old ++ error_sentence (union (clash_of_value clash.now))) }
{
    match clash {
        Clash::NoMember(ty) => push_around(text, "", ty, " cannot be in a union"),
        Clash::Two(first, second) => {
            push_pair_around(text, "", first, " and ", second, " cannot be in one union")
        }
    }
}

/// Returns the words for the reason why there is no function `main` without parameters.
fn main_words(why: NoMain) -> &'static str
    ensures { result.now ≡ no_main_text (main_of_value why) }
{
    match why {
        NoMain::NoSuchName => "there is no function main",
        NoMain::HasParameters(_) => "main has parameters",
        NoMain::IsNoFunction(_) => "main is no function",
    }
}

/// Appends what is against a rule.
pub(crate) fn push_rule_fault(text: &mut String, fault: &RuleFault) -> Result<(), OutOfMemory>
    ensures { OnOk result (string_bytes text.new
        ≡ string_bytes text.old ++ error_sentence (rule_fault_of_value fault.now)) }
{
    match fault {
        RuleFault::NotAValue(meaning) => push_no_value(text, meaning),
        RuleFault::NoReturn(function, promised) => {
            push_function_then(text, function, " may end without returning ", promised)
        }
        RuleFault::Keys(keys) => push_keys(text, keys),
        RuleFault::MethodStore(method) => push_method(text, method, " cannot be assigned"),
        RuleFault::NoTest(name) => push_no_test(text, name),
        RuleFault::Size(n) => push_number_around(
            text,
            "the type has ",
            *n,
            " nodes, and at most 256 are allowed",
        ),
        RuleFault::RangeElsewhere => push_text(text, "range can only be looped over"),
        RuleFault::Twice(name, earlier) => push_around(text, "", name, earlier_words(*earlier)),
        RuleFault::UnknownName(name, elsewhere) => push_unknown(text, name, elsewhere),
        RuleFault::Early(early) => push_early(text, early),
        RuleFault::Unassigned(name, _) => push_around(text, "", name, " may have no value yet"),
        RuleFault::OutsideLoop(word) => {
            push_both(text, leaving_words(*word), " is outside a loop")
        }
        RuleFault::Member(m, _) => push_pair(text, "", &m.class, " already has a member ", &m.name),
        RuleFault::Base(name, later) => push_base(text, name, *later),
        RuleFault::FieldOrder(late, class) => push_field_order(text, late, class),
        RuleFault::Annotation(fault) => push_annotation(text, fault),
        RuleFault::Union(clash) => push_clash(text, clash),
        RuleFault::LateAnnotation(name, _) => {
            push_around(text, "", name, " is already bound when it is annotated")
        }
        RuleFault::Main(why) => push_text(text, main_words(*why)),
        RuleFault::Reserved(name) => push_around(text, "", name, " is a reserved name"),
        RuleFault::Unreachable(word, _) => {
            push_both(text, "nothing is reached after ", leaving_words(*word))
        }
        RuleFault::DefaultOrder(late) => push_default_order(text, late),
    }
}
