//! Why a value, a call, an annotation or a method does not fit, in words.

ghost use Rattle.std.specs.Prelude.{◌≡◌, ◌++◌, OnOk, string_bytes, codes};
ghost use Rattle.pc_detail_texts.specs.Sentences.{Words, sink_text, flow_lead, flow_end, flow_sentence, count_text, at_most};
ghost use Rattle.pc_detail_texts.specs.Sentences.{done_with};
ghost use Rattle.pc_detail_texts.specs.Sentences.{missing_lead, others_text, misfit_text, annotation_text, override_text};
ghost use Rattle.pc_detail_texts.specs.Sentences.{callable_text, function_text, typed_of, typed_text};
ghost use Rattle.pc_detail_texts.specs.Shown.{words, all_words, holder_of_value, sink_of_value, misfit_of_value};
ghost use Rattle.pc_detail_texts.specs.Shown.{annotation_of_value, override_of_value, callable_of_value};
ghost use Rattle.pc_detail_texts.specs.Shown.{function_of_value};
ghost use Rattle.pc_detail_texts.specs.Details.{missing, given_twice, takes_types, other_count};

use crate::details::{
    AnnotationFault, Callable, Counts, Flow, FunctionName, Holder, MemberName, Misfit,
    OverrideFault, Sink,
};
use crate::phrases::{
    push_callable, push_callable_and, push_callable_then, push_counted, push_function,
    push_function_and, push_function_then, push_joined,
};
use crate::pieces::{
    push_around, push_both, push_name, push_named, push_number, push_number_around, push_pair,
    push_pair_around, push_text,
};
use pc_source::OutOfMemory;
use std::rc::RcStr;

/// Appends a field with its type and its class.
fn push_field(text: &mut String, into: &RcStr, field: &MemberName) -> Result<(), OutOfMemory>
    ensures { OnOk result (string_bytes text.new ≡ string_bytes text.old
        ++ (codes "field " ++ typed_of (words field.now.name) (words into.now) (words field.now.class))) }
{
    Ok(write!(text, "field {}: {into} of {}", field.name, field.class)?)
}

/// Appends a thing with its name and its type.
fn push_typed(text: &mut String, thing: &str, name: &RcStr, into: &RcStr) -> Result<(), OutOfMemory>
    ensures { OnOk result (string_bytes text.new
        ≡ string_bytes text.old ++ (thing.now ++ typed_text (words name.now) (words into.now))) }
{
    push_pair(text, thing, name, ": ", into)
}

/// Appends a parameter with its type, up to its owner.
fn push_parameter(text: &mut String, name: &RcStr, into: &RcStr) -> Result<(), OutOfMemory>
    ensures { OnOk result (string_bytes text.new ≡ string_bytes text.old
        ++ (codes "parameter " ++ (words name.now ++ (codes ": " ++ (words into.now ++ codes " of "))))) }
{
    push_pair_around(text, "parameter ", name, ": ", into, " of ")
}

/// Appends a parameter of a callee, with its type.
fn push_parameter_of(
    text: &mut String,
    name: &RcStr,
    into: &RcStr,
    callable: &Callable,
) -> Result<(), OutOfMemory>
    ensures { OnOk result (string_bytes text.new ≡ string_bytes text.old ++ (codes "parameter "
        ++ typed_of (words name.now) (words into.now) (callable_text (callable_of_value callable.now)))) }
{
    push_parameter(text, name, into)?;
    push_callable(text, callable)
}

/// Appends a parameter of a function, with its type.
fn push_default_of(
    text: &mut String,
    name: &RcStr,
    into: &RcStr,
    function: &FunctionName,
) -> Result<(), OutOfMemory>
    ensures { OnOk result (string_bytes text.new ≡ string_bytes text.old ++ (codes "parameter "
        ++ typed_of (words name.now) (words into.now) (function_text (function_of_value function.now)))) }
{
    push_parameter(text, name, into)?;
    push_function(text, function)
}

/// Appends a place that keeps a value of this type.
fn push_holder(text: &mut String, into: &RcStr, holder: &Holder) -> Result<(), OutOfMemory>
    ensures { OnOk result (string_bytes text.new
        ≡ string_bytes text.old ++ sink_text (words into.now) (holder_of_value holder.now)) }
{
    match holder {
        Holder::Parameter(name, callable) => push_parameter_of(text, name, into, callable),
        Holder::Field(member) => push_field(text, into, member),
        Holder::Local(name) => push_typed(text, "local ", name, into),
        Holder::LoopTarget(name) => push_typed(text, "loop variable ", name, into),
        Holder::Constant(name) => push_typed(text, "constant ", name, into),
        Holder::ParameterDefault(name, function) => push_default_of(text, name, into, function),
        Holder::FieldDefault(member) => push_field(text, into, member),
        Holder::Item(object) => push_named(text, "an item of ", object),
        Holder::Key(object) => push_named(text, "a key of ", object),
        Holder::Value(object) => push_named(text, "a value of ", object),
        Holder::Index(object) => push_named(text, "an index of ", object),
    }
}

/// Appends the argument of a callee that takes arguments by position only, with its type.
fn push_argument(text: &mut String, into: &RcStr, callable: &Callable) -> Result<(), OutOfMemory>
    ensures { OnOk result (string_bytes text.new ≡ string_bytes text.old
        ++ (codes "the argument of " ++ typed_text (callable_text (callable_of_value callable.now)) (words into.now))) }
{
    push_text(text, "the argument of ")?;
    push_callable_then(text, callable, ": ", into)
}

/// Appends the return of a function, with its type.
fn push_return(text: &mut String, into: &RcStr, function: &FunctionName) -> Result<(), OutOfMemory>
    ensures { OnOk result (string_bytes text.new ≡ string_bytes text.old
        ++ (codes "the return of " ++ typed_text (function_text (function_of_value function.now)) (words into.now))) }
{
    push_text(text, "the return of ")?;
    push_function_then(text, function, ": ", into)
}

/// Appends the place where a value of this type goes.
pub(crate) fn push_sink(text: &mut String, into: &RcStr, sink: &Sink) -> Result<(), OutOfMemory>
    ensures { OnOk result (string_bytes text.new
        ≡ string_bytes text.old ++ sink_text (words into.now) (sink_of_value sink.now)) }
{
    match sink {
        Sink::Argument(callable) => push_argument(text, into, callable),
        Sink::Return(function) => push_return(text, into, function),
        Sink::Sought(object) => push_named(text, "an item of ", object),
        Sink::Holder(holder) => push_holder(text, into, holder),
    }
}

/// Returns the words before and after the type of a value that flows to a sink which keeps it.
fn words_around_kept(holder: &Holder) -> (&'static str, &'static str)
    ensures { (from : Words) → flow_lead from (holder_of_value holder.now) ≡ done_with result.0.now from result.1.now }
{
    match holder {
        Holder::Parameter(_, _) => ("pass", "for"),
        Holder::Field(_) => ("assign", "to"),
        Holder::Local(_) => ("assign", "to"),
        Holder::LoopTarget(_) => ("assign", "to"),
        Holder::Constant(_) => ("assign", "to"),
        Holder::ParameterDefault(_, _) => ("use", "as default of"),
        Holder::FieldDefault(_) => ("use", "as default of"),
        Holder::Item(_) => ("use", "as"),
        Holder::Key(_) => ("use", "as"),
        Holder::Value(_) => ("use", "as"),
        Holder::Index(_) => ("use", "as"),
    }
}

/// Returns the words before and after the type of a value that flows to a sink.
fn words_around(sink: &Sink) -> (&'static str, &'static str)
    ensures { (from : Words) → flow_lead from (sink_of_value sink.now) ≡ done_with result.0.now from result.1.now }
{
    match sink {
        Sink::Argument(_) => ("pass", "to"),
        Sink::Return(_) => ("return", "from"),
        Sink::Sought(_) => ("look for", "in"),
        Sink::Holder(holder) => words_around_kept(holder),
    }
}

/// Appends the beginning of the sentence of a flow: the verb and the type of the value, up to the sink.
fn push_lead(text: &mut String, from: &RcStr, sink: &Sink) -> Result<(), OutOfMemory>
    ensures { OnOk result (string_bytes text.new
        ≡ string_bytes text.old ++ flow_lead (words from.now) (sink_of_value sink.now)) }
{
    let (verb, word) = words_around(sink);
    Ok(write!(text, "{verb} {from} {word} ")?)
}

/// Appends the end of the sentence of a flow: the sink.
#[tactic(auto, using(crate::proofs::Cases::holder_ends))]
fn push_end(text: &mut String, into: &RcStr, sink: &Sink) -> Result<(), OutOfMemory>
    ensures { OnOk result (string_bytes text.new
        ≡ string_bytes text.old ++ flow_end (words into.now) (sink_of_value sink.now)) }
{
    match sink {
        Sink::Argument(callable) => push_callable_then(text, callable, ", which takes ", into),
        Sink::Return(function) => push_function_then(text, function, ", which returns ", into),
        Sink::Sought(object) => push_name(text, object),
        Sink::Holder(holder) => push_holder(text, into, holder),
    }
}

/// Appends that a value of one type cannot go where another type is expected.
pub(crate) fn push_flow(text: &mut String, flow: &Flow) -> Result<(), OutOfMemory>
    ensures { OnOk result (string_bytes text.new ≡ string_bytes text.old ++ (codes "cannot "
        ++ flow_sentence (words flow.now.from) (words flow.now.into) (sink_of_value flow.now.sink))) }
{
    push_text(text, "cannot ")?;
    push_lead(text, &flow.from, &flow.sink)?;
    push_end(text, &flow.into, &flow.sink)
}

/// Appends how many arguments by position a callee takes, and how many it is given.
fn push_counts(
    text: &mut String,
    callable: &Callable,
    bound: &str,
    counts: Counts,
) -> Result<(), OutOfMemory>
    ensures { OnOk result (string_bytes text.new ≡ string_bytes text.old
        ++ count_text (callable_text (callable_of_value callable.now)) bound.now counts.takes counts.given) }
{
    push_callable(text, callable)?;
    push_both(text, " takes ", bound)?;
    push_counted(text, counts.takes, "argument")?;
    push_number(text, " by position and is given ", counts.given)
}

/// Returns the words that say that fewer arguments may be given, if any are taken.
fn at_most(takes: usize) -> &'static str
    ensures { result.now ≡ at_most takes }
{
    if takes == 0 { "" } else { "at most " }
}

/// Returns the words before the names of parameters without an argument.
fn missing_lead(names: &[RcStr]) -> &'static str
    ensures { result.now ≡ missing_lead (all_words names.now) }
{
    if names.len() == 1 {
        "missing argument "
    } else {
        "missing arguments "
    }
}

/// Appends the number of further things, if there are any.
fn push_others(text: &mut String, others: usize) -> Result<(), OutOfMemory>
    ensures { OnOk result (string_bytes text.new ≡ string_bytes text.old ++ others_text others) }
{
    if others == 0 {
        return Ok(());
    }
    push_number_around(text, " and ", others, " more")
}

/// Appends the names of parameters without an argument, and their owner.
fn push_missing(
    text: &mut String,
    callable: &Callable,
    names: &[RcStr],
    others: usize,
) -> Result<(), OutOfMemory>
    ensures { OnOk result (string_bytes text.new ≡ string_bytes text.old
        ++ misfit_text (callable_text (callable_of_value callable.now)) (missing (all_words names.now) others)) }
{
    text.push_str(missing_lead(names))?;
    push_joined(text, ", ", names)?;
    push_others(text, others)?;
    text.push_str(" of ")?;
    push_callable(text, callable)
}

/// Appends that a parameter is given twice.
fn push_given_twice(text: &mut String, callable: &Callable, name: &RcStr) -> Result<(), OutOfMemory>
    ensures { OnOk result (string_bytes text.new ≡ string_bytes text.old
        ++ misfit_text (callable_text (callable_of_value callable.now)) (given_twice (words name.now))) }
{
    push_around(text, "two arguments for parameter ", name, " of ")?;
    push_callable(text, callable)
}

/// Appends the reason why the arguments of a call do not suit its callee.
pub(crate) fn push_misfit(
    text: &mut String,
    callable: &Callable,
    misfit: &Misfit,
) -> Result<(), OutOfMemory>
    ensures { OnOk result (string_bytes text.new ≡ string_bytes text.old
        ++ misfit_text (callable_text (callable_of_value callable.now)) (misfit_of_value misfit.now)) }
{
    match misfit {
        Misfit::TooMany(counts) => push_counts(text, callable, at_most(counts.takes), *counts),
        Misfit::TooFew(counts) => push_counts(text, callable, "", *counts),
        Misfit::ByPositionOnly => push_callable_and(text, callable, " takes no arguments by name"),
        Misfit::NoParameter(name) => push_callable_then(text, callable, " has no parameter ", name),
        Misfit::GivenTwice(name) => push_given_twice(text, callable, name),
        Misfit::Missing(names, others) => push_missing(text, callable, names, *others),
        Misfit::NotCallable => push_callable_and(text, callable, " cannot be called"),
    }
}

/// Appends that another number of types is taken than is given.
fn push_types_taken(text: &mut String, name: &RcStr, counts: Counts) -> Result<(), OutOfMemory>
    ensures { OnOk result (string_bytes text.new ≡ string_bytes text.old
        ++ annotation_text (takes_types (words name.now) counts.takes counts.given)) }
{
    push_around(text, "", name, " takes ")?;
    push_counted(text, counts.takes, "type")?;
    push_number(text, " and is given ", counts.given)
}

/// Appends the reason why an annotation is not a type.
pub(crate) fn push_annotation(text: &mut String, fault: &AnnotationFault) -> Result<(), OutOfMemory>
    ensures { OnOk result (string_bytes text.new
        ≡ string_bytes text.old ++ annotation_text (annotation_of_value fault.now)) }
{
    match fault {
        AnnotationFault::UnknownType(name) => push_named(text, "no class is named ", name),
        AnnotationFault::NoType(name, _) => push_around(text, "", name, " is no class"),
        AnnotationFault::ReservedNoType(name) => push_around(text, "", name, " is no type"),
        AnnotationFault::AnyNotImported => push_text(text, "Any is not imported"),
        AnnotationFault::Bare(name) => {
            push_around(text, "", name, " needs the types of what it holds")
        }
        AnnotationFault::TakesTypes(name, counts) => push_types_taken(text, name, *counts),
        AnnotationFault::TakesNone(name) => {
            push_around(text, "", name, " takes no types in brackets")
        }
        AnnotationFault::KeyType(ty) => {
            push_named(text, "a key of a dict must be int or str, not ", ty)
        }
    }
}

/// Appends that a method has another number of parameters than the one above.
fn push_other_count(
    text: &mut String,
    method: &FunctionName,
    above: usize,
    here: usize,
) -> Result<(), OutOfMemory>
    ensures { OnOk result (string_bytes text.new ≡ string_bytes text.old
        ++ override_text (function_text (function_of_value method.now)) (other_count above here)) }
{
    push_function_and(text, method, " has ")?;
    push_counted(text, above, "parameter")?;
    push_number(text, ", not ", here)
}

/// Appends a method above, and what it has in place of something of the method here.
fn push_differs(
    text: &mut String,
    above: &FunctionName,
    verb: &str,
    theirs: &RcStr,
    ours: &RcStr,
) -> Result<(), OutOfMemory>
    ensures { OnOk result (string_bytes text.new ≡ string_bytes text.old
        ++ (function_text (function_of_value above.now)
        ++ (verb.now ++ (words theirs.now ++ (codes ", not " ++ words ours.now))))) }
{
    push_function(text, above)?;
    push_pair(text, verb, theirs, ", not ", ours)
}

/// Appends the part in which a method differs from the one above.
pub(crate) fn push_override(
    text: &mut String,
    above: &FunctionName,
    fault: &OverrideFault,
) -> Result<(), OutOfMemory>
    ensures { OnOk result (string_bytes text.new ≡ string_bytes text.old
        ++ override_text (function_text (function_of_value above.now)) (override_of_value fault.now)) }
{
    match fault {
        OverrideFault::OtherCount(theirs, ours) => push_other_count(text, above, *theirs, *ours),
        OverrideFault::OtherName(position, theirs, ours) => {
            push_number_around(text, "parameter ", *position, " of ")?;
            push_differs(text, above, " is named ", theirs, ours)
        }
        OverrideFault::NoDefault(name) => {
            push_around(text, "parameter ", name, " of ")?;
            push_function_and(text, above, " has a default")
        }
        OverrideFault::OtherReturn(types) => {
            push_differs(text, above, " returns ", &types.above, &types.here)
        }
        OverrideFault::OtherParameter(name, types) => {
            push_around(text, "parameter ", name, " of ")?;
            push_differs(text, above, " takes ", &types.above, &types.here)
        }
    }
}
