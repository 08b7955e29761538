//! The sinks of the arguments of a call.

ghost use Rattle.std.specs.Prelude.{◌≡◌, All, OnOk, flat_map, map};
ghost use Rattle.pc_tree.specs.Depth.{place_of};
ghost use Rattle.pc_tree.specs.Lists.{exprs_of_list, keywords_of_list};
ghost use Rattle.pc_tree.specs.Tree.{expr_of, name_of};
ghost use Rattle.pc_rules.specs.Calls.{index_of_parameter};
ghost use Rattle.pc_detail_facts.specs.Callees.{IsHeldCalled, called_of, parameters_called};
ghost use Rattle.pc_detail_facts.specs.Held.{AreFacts};
ghost use Rattle.pc_flow_details.specs.Kept.{first_of_both, flows_to_sinks, flows_kept};
ghost use Rattle.pc_detail_rules.specs.Sinks.{named_on, named_sinks, positional_on, positional_sinks};

use crate::sink::{SinkAt, SinkOf, Sinks, add_sink};
use pc_detail_facts::{CallTarget, Facts};
use pc_source::{OutOfMemory, Place};
use pc_tree::{Expr, KeywordArgument};

/// Adds the sinks of arguments by position.
pub(crate) fn add_positional<'c>(
    facts: &Facts<'c, '_>,
    sinks: &mut Sinks,
    called: &[CallTarget<'c>],
    arguments: &'c [Expr],
) -> Result<(), OutOfMemory>
    requires facts { AreFacts facts.now }
    requires held { All IsHeldCalled called.now }
    ensures { OnOk result (flows_kept sinks.new ≡ first_of_both (flows_kept sinks.old) (flows_to_sinks facts.now
        (positional_sinks (map (called_of facts.now) called.now) 0 (exprs_of_list arguments.now)))) }
{
    let mut position = 0;
    for argument in arguments {
        add_at(facts, sinks, called, argument, position)?;
        position += 1;
    }
    Ok(())
}

/// Adds the sinks of an argument at a position.
fn add_at<'c>(
    facts: &Facts<'c, '_>,
    sinks: &mut Sinks,
    called: &[CallTarget<'c>],
    argument: &'c Expr,
    position: usize,
) -> Result<(), OutOfMemory>
    requires facts { AreFacts facts.now }
    requires held { All IsHeldCalled called.now }
    ensures { OnOk result (flows_kept sinks.new ≡ first_of_both (flows_kept sinks.old) (flows_to_sinks facts.now
        (flat_map (positional_on (place_of (expr_of argument.now)) position) (map (called_of facts.now) called.now)))) }
{
    let place = argument.place();
    for callee in called {
        add_argument(facts, sinks, place, *callee, position)?;
    }
    Ok(())
}

/// Adds the sinks of arguments by name.
pub(crate) fn add_named<'c>(
    facts: &Facts<'c, '_>,
    sinks: &mut Sinks,
    called: &[CallTarget<'c>],
    keywords: &'c [KeywordArgument],
) -> Result<(), OutOfMemory>
    requires facts { AreFacts facts.now }
    requires held { All IsHeldCalled called.now }
    ensures { OnOk result (flows_kept sinks.new ≡ first_of_both (flows_kept sinks.old) (flows_to_sinks facts.now
        (named_sinks (map (called_of facts.now) called.now) (keywords_of_list keywords.now)))) }
{
    for keyword in keywords {
        add_by_name(facts, sinks, called, keyword)?;
    }
    Ok(())
}

/// Adds the sinks of an argument by name.
fn add_by_name<'c>(
    facts: &Facts<'c, '_>,
    sinks: &mut Sinks,
    called: &[CallTarget<'c>],
    keyword: &'c KeywordArgument,
) -> Result<(), OutOfMemory>
    requires facts { AreFacts facts.now }
    requires held { All IsHeldCalled called.now }
    ensures { OnOk result (flows_kept sinks.new ≡ first_of_both (flows_kept sinks.old) (flows_to_sinks facts.now
        (flat_map (named_on (place_of (expr_of keyword.now.value)) (name_of keyword.now.name).text)
        (map (called_of facts.now) called.now)))) }
{
    for callee in called {
        add_argument_named(facts, sinks, *callee, keyword)?;
    }
    Ok(())
}

/// Adds the sink of an argument by name of one callee, if the callee takes it.
fn add_argument_named<'c>(
    facts: &Facts<'c, '_>,
    sinks: &mut Sinks,
    called: CallTarget<'c>,
    keyword: &'c KeywordArgument,
) -> Result<(), OutOfMemory>
    requires facts { AreFacts facts.now }
    requires held { IsHeldCalled called }
    ensures { OnOk result (flows_kept sinks.new ≡ first_of_both (flows_kept sinks.old) (flows_to_sinks facts.now
        (named_on (place_of (expr_of keyword.now.value)) (name_of keyword.now.name).text
        (called_of facts.now called.entry)))) }
{
    match position_of(facts, called, keyword.name.text.as_str()) {
        Some(position) => add_argument(facts, sinks, keyword.value.place(), called, position),
        None => Ok(()),
    }
}

/// Adds the sink of an argument that one callee takes with the parameter at a position, if there is one.
fn add_argument<'c>(
    facts: &Facts<'c, '_>,
    sinks: &mut Sinks,
    place: Place,
    called: CallTarget<'c>,
    position: usize,
) -> Result<(), OutOfMemory>
    requires facts { AreFacts facts.now }
    requires held { IsHeldCalled called }
    ensures { OnOk result (flows_kept sinks.new ≡ first_of_both (flows_kept sinks.old) (flows_to_sinks facts.now
        (positional_on place position (called_of facts.now called.entry)))) }
{
    if !facts.known.has_flow(place) {
        return Ok(());
    }
    match called.type_at(facts, position)? {
        Some(ty) => {
            let sink = SinkAt {
                place,
                into: Some(&ty),
                sink: SinkOf::Parameter(called, position),
                written: called.annotation_at(facts, position),
            };
            add_sink(facts, sinks, sink)
        }
        None => Ok(()),
    }
}

/// Returns the position of the first parameter with a name.
fn position_of<'c>(facts: &Facts<'c, '_>, called: CallTarget<'c>, name: &str) -> Option<usize>
    requires { AreFacts facts.now }
    ensures { result ≡ index_of_parameter (parameters_called facts.now called.entry) name.now }
{
    for position in 0..called.count(facts) {
        if name == called.name_at(facts, position) {
            return Some(position);
        }
    }
    None
}
