//! A place where a value goes, and the flow that is kept of it.

ghost use Rattle.std.specs.Prelude.{◌≡◌, ◌∷◌, [], IfOk, IfSome, OnOk, option_map, true};
ghost use Rattle.std.specs.Option.{option_map_or, option_or};
ghost use Rattle.pc_source.specs.declared.place.Place.{Place as PlaceOf};
ghost use Rattle.pc_types.specs.Boxed.{tree_of};
ghost use Rattle.pc_types.specs.Join.{same_tree};
ghost use Rattle.pc_annotations.specs.Text.{class_text};
ghost use Rattle.pc_notes.specs.Notes.{pair_shown};
ghost use Rattle.pc_detail_texts.specs.Details as detail;
ghost use Rattle.pc_detail_texts.specs.Mapped.{map_sink};
ghost use Rattle.pc_detail_texts.specs.Shortened.{shortened};
ghost use Rattle.pc_detail_texts.specs.Shown.{sink_of_value, words};
ghost use Rattle.pc_detail_facts.specs.Annotated.{annotation_lent};
ghost use Rattle.pc_detail_facts.specs.Callees.{IsHeldCalled};
ghost use Rattle.pc_flow_details.specs.Goes.{IsHeldSink, sink_at_held, sink_held, sink_of_callee};
ghost use Rattle.pc_detail_facts.specs.Held.{AreFacts, AreGivenLent, module_held, text_held, tree_lent};
ghost use Rattle.pc_flow_details.specs.Kept.{first_of_both, flow_kept, flow_of_value, flows_to_sinks, flows_kept};
ghost use Rattle.pc_detail_rules.specs.Sinks.{one_sink, only_sink};
ghost use Rattle.pc_detail_rules.specs.ToldTypes.{told_among, told_flow};

use pc_detail_facts::{Body, CallTarget, Facts};
use pc_detail_texts::{Flow, Holder, MemberName, Sink};
use pc_source::{OutOfMemory, Place};
use pc_tree::Ann;
use pc_types::{BoxType, is_same};
use std::collections::BTreeMap;

/// Where a value goes, in names and types of the module.
#[derive(Clone, Copy)]
pub(crate) enum SinkOf<'c> {
    /// A parameter of what is called, at this position.
    Parameter(CallTarget<'c>, usize),
    Return(Body<'c>),
    /// A field of the class with this number, by its name.
    Field(usize, &'c str),
    Local(&'c str),
    LoopTarget(&'c str),
    Constant(&'c str),
    ParameterDefault(Body<'c>, &'c str),
    /// A field of a class, by the names of both.
    FieldDefault(&'c str, &'c str),
    Item(&'c BoxType),
    Key(&'c BoxType),
    Value(&'c BoxType),
    Index(&'c BoxType),
    Sought(&'c BoxType),
}

/// The sink of a value at a place, the type that the value flows into, none if it is the only sink there, and the
/// annotation of the sink, if it has one.
#[derive(Clone, Copy)]
pub(crate) struct SinkAt<'t, 'c> {
    pub(crate) place: Place,
    pub(crate) into: Option<&'t BoxType>,
    pub(crate) sink: SinkOf<'c>,
    pub(crate) written: Option<&'c Ann>,
}

/// The wrong and the dynamic flows of a module by place, each with its sink.
#[derive(Drop)]
pub struct Sinks {
    pub wrong: BTreeMap<Place, Flow>,
    pub dynamic: BTreeMap<Place, Flow>,
}

/// Returns the name of a member of the class with this number.
fn member_words(facts: &Facts<'_, '_>, class: usize, name: &str) -> Result<MemberName, OutOfMemory>
    requires { AreFacts facts.now }
    ensures class { IfOk result (λ n. words n.class ≡ shortened (class_text (module_held facts.now) class)) }
    ensures name { IfOk result (λ n. words n.name ≡ shortened name.now) }
{
    let class = facts.class_words(class)?;
    let name = facts.words(name)?;
    Ok(MemberName { class, name })
}

/// Returns a parameter as a sink; what takes arguments by position only has no names for them.
fn parameter_sink<'c>(
    facts: &Facts<'c, '_>,
    called: CallTarget<'c>,
    position: usize,
) -> Result<Sink, OutOfMemory>
    requires facts { AreFacts facts.now }
    requires held { IsHeldCalled called }
    ensures { IfOk result (λ s. sink_of_value s
        ≡ map_sink (text_held facts.now) (sink_of_callee facts.now called.entry position)) }
{
    let callable = called.shown(facts)?;
    if !called.takes_names() {
        return Ok(Sink::Argument(callable));
    }
    let name = facts.words(called.name_at(facts, position))?;
    Ok(Sink::Holder(Holder::Parameter(name, callable)))
}

/// Returns a sink as it is shown.
fn shown_sink<'c>(facts: &Facts<'c, '_>, sink: SinkOf<'c>) -> Result<Sink, OutOfMemory>
    requires facts { AreFacts facts.now }
    requires held { IsHeldSink sink }
    ensures { IfOk result (λ s. sink_of_value s ≡ map_sink (text_held facts.now) (sink_held facts.now sink.entry)) }
{
    match sink {
        SinkOf::Parameter(called, position) => parameter_sink(facts, called, position),
        SinkOf::Return(body) => Ok(Sink::Return(facts.body_words(body)?)),
        SinkOf::Sought(ty) => Ok(Sink::Sought(facts.type_words(ty)?)),
        SinkOf::Field(class, name) => {
            Ok(Sink::Holder(Holder::Field(member_words(facts, class, name)?)))
        }
        SinkOf::Local(name) => Ok(Sink::Holder(Holder::Local(facts.words(name)?))),
        SinkOf::LoopTarget(name) => Ok(Sink::Holder(Holder::LoopTarget(facts.words(name)?))),
        SinkOf::Constant(name) => Ok(Sink::Holder(Holder::Constant(facts.words(name)?))),
        SinkOf::ParameterDefault(body, name) => {
            let name = facts.words(name)?;
            Ok(Sink::Holder(Holder::ParameterDefault(name, facts.body_words(body)?)))
        }
        SinkOf::FieldDefault(class, name) => {
            let class = facts.words(class)?;
            let name = facts.words(name)?;
            Ok(Sink::Holder(Holder::FieldDefault(MemberName { class, name })))
        }
        SinkOf::Item(ty) => Ok(Sink::Holder(Holder::Item(facts.type_words(ty)?))),
        SinkOf::Key(ty) => Ok(Sink::Holder(Holder::Key(facts.type_words(ty)?))),
        SinkOf::Value(ty) => Ok(Sink::Holder(Holder::Value(facts.type_words(ty)?))),
        SinkOf::Index(ty) => Ok(Sink::Holder(Holder::Index(facts.type_words(ty)?))),
    }
}

/// Returns a flow of these two types with its sink.
fn flow_words<'c>(
    facts: &Facts<'c, '_>,
    types: &(&'c BoxType, &'c BoxType),
    sink: SinkAt<'_, 'c>,
) -> Result<Flow, OutOfMemory>
    requires facts { AreFacts facts.now }
    requires types { AreGivenLent types.now }
    requires held { IsHeldSink sink.sink }
    ensures { IfOk result (λ flow. flow_of_value flow ≡ told_flow (module_held facts.now)
        (tree_of types.now.0.now) (tree_of types.now.1.now) (sink_at_held facts.now sink.entry)) }
{
    let from = facts.type_words(types.0)?;
    let into = facts.target_words(sink.written, types.1)?;
    let sink = shown_sink(facts, sink.sink)?;
    Ok(Flow { from, into, sink })
}

/// Keeps a flow at the place of a sink that takes it, unless one is kept there.
fn keep_flow<'c>(
    facts: &Facts<'c, '_>,
    kept: &mut BTreeMap<Place, Flow>,
    flow: Option<&(&'c BoxType, &'c BoxType)>,
    sink: SinkAt<'_, 'c>,
) -> Result<(), OutOfMemory>
    requires facts { AreFacts facts.now }
    requires flow { IfSome flow (λ t. AreGivenLent t.now) }
    requires held { IsHeldSink sink.sink }
    ensures { OnOk result ((place : PlaceOf) → flow_kept kept.new place
        ≡ option_or (flow_kept kept.old place) (told_among (module_held facts.now)
        (sink_at_held facts.now sink.entry ∷ []) place (option_map (λ t. pair_shown t.now) flow.entry))) }
{
    if kept.contains_key(&sink.place) {
        return Ok(());
    }
    let Some(types) = flow else {
        return Ok(());
    };
    if !is_into(types.1, sink.into) {
        return Ok(());
    }
    let flow = flow_words(facts, types, sink)?;
    kept.insert(sink.place, flow)?;
    Ok(())
}

/// Keeps the wrong flow and the dynamic flow at the place of a sink, of those that it takes, unless one is kept there.
pub(crate) fn add_sink<'c>(
    facts: &Facts<'c, '_>,
    sinks: &mut Sinks,
    sink: SinkAt<'_, 'c>,
) -> Result<(), OutOfMemory>
    requires facts { AreFacts facts.now }
    requires held { IsHeldSink sink.sink }
    ensures { OnOk result (flows_kept sinks.new
        ≡ first_of_both (flows_kept sinks.old) (flows_to_sinks facts.now (sink_at_held facts.now sink.entry ∷ []))) }
{
    keep_flow(
        facts,
        &mut sinks.wrong,
        facts.known.wrong_at(sink.place),
        sink,
    )?;
    keep_flow(
        facts,
        &mut sinks.dynamic,
        facts.known.dynamic_at(sink.place),
        sink,
    )
}

/// Keeps the flows at a place which has this sink alone, with its annotation.
pub(crate) fn add_only<'c>(
    facts: &Facts<'c, '_>,
    sinks: &mut Sinks,
    place: Place,
    sink: SinkOf<'c>,
    written: Option<&'c Ann>,
) -> Result<(), OutOfMemory>
    requires facts { AreFacts facts.now }
    requires held { IsHeldSink sink }
    ensures { OnOk result (flows_kept sinks.new ≡ first_of_both (flows_kept sinks.old)
        (flows_to_sinks facts.now (only_sink place (sink_held facts.now sink.entry)
        (option_map annotation_lent written.entry) ∷ []))) }
{
    let into = None;
    let sink = SinkAt {
        place,
        into,
        sink,
        written,
    };
    add_sink(facts, sinks, sink)
}

/// Keeps the flows at a place into this type, which go into this sink without an annotation, unless one is kept there.
pub(crate) fn add_into<'c>(
    facts: &Facts<'c, '_>,
    sinks: &mut Sinks,
    place: Place,
    into: &BoxType,
    sink: SinkOf<'c>,
) -> Result<(), OutOfMemory>
    requires facts { AreFacts facts.now }
    requires held { IsHeldSink sink }
    ensures { OnOk result (flows_kept sinks.new ≡ first_of_both (flows_kept sinks.old)
        (flows_to_sinks facts.now (one_sink place (sink_held facts.now sink.entry) (tree_of into.now) ∷ []))) }
{
    let sink = SinkAt {
        place,
        into: Some(into),
        sink,
        written: None,
    };
    add_sink(facts, sinks, sink)
}

/// Returns whether a type is the one that a value flows into; any type is where there is only one sink.
fn is_into(ty: &BoxType, into: Option<&BoxType>) -> bool
    ensures { result ≡ option_map_or (same_tree (tree_of ty.now)) (option_map tree_lent into.entry) true }
{
    match into {
        Some(into) => is_same(ty, into),
        None => true,
    }
}
