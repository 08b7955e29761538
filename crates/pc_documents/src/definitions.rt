//! The definitions of the names at a position of a text: the places where they are bound.

ghost use Rattle.std.specs.Prelude.{◌≡◌, ◌++◌, IfOk, OnOk, map, option_map, string_bytes};
ghost use Rattle.serde_json.specs.View.{view};
ghost use Rattle.pc_tree.specs.Tree.{name_of, module_of};
ghost use Rattle.pc_tree.specs.Lists.{name_seen};
ghost use Rattle.pc_bindings.specs.Mentions.{mentions_in};
ghost use Rattle.pc_bindings.specs.Bindings.{binding_of};
ghost use Rattle.pc_bindings.specs.Written.{mention_of};
ghost use Rattle.pc_position.specs.Positions.{IsPositionOf};
ghost use Rattle.pc_documents.specs.Definitions.{location_data, located, is_at, definitions_among};
ghost use Rattle.pc_documents.specs.Definitions.{definitions_in, AreDefinitions, AreDefinitionsAs};

use crate::documents::Document;
use crate::hover::is_within;
use crate::ranges::{ends_of, range_value};
use crate::related::location_value;
use crate::settings::Settings;
use pc_bindings::{Mention, binding_of, mentions};
use pc_front::read_module;
use pc_position::{Encoding, Mark, Position};
use pc_source::OutOfMemory;
use pc_tree::{Module, Name};
use serde_json::Value;
use std::alloc::{AllocError, Global};

/// Returns the place of a name, in the document with this URI.
fn location(
    alloc: Global,
    encoding: Encoding,
    text: &[u8],
    uri: &str,
    name: &Name,
) -> Result<Value, AllocError>
    ensures { IfOk result (λ v. view v ≡ location_data encoding text.now uri.now (name_of name.now)) }
{
    let (start, end) = ends_of(
        text,
        encoding,
        Mark::start(),
        name.place.start,
        name.place.end,
    );
    let range = range_value(alloc, start.position, end.position)?;
    location_value(alloc, uri, range)
}

/// Adds the place of a name, if there is one.
fn add_location(
    values: &mut Vec<Value>,
    alloc: Global,
    encoding: Encoding,
    text: &[u8],
    uri: &str,
    name: Option<&Name>,
) -> Result<(), OutOfMemory>
    ensures { OnOk result (map view values.new.items
        ≡ map view values.old.items ++ located encoding text.now uri.now (option_map name_seen name.entry)) }
{
    match name {
        None => Ok(()),
        Some(name) => {
            values.push(location(alloc, encoding, text, uri, name)?)?;
            Ok(())
        }
    }
}

/// Returns whether the place of a name covers a position, and the mark of its start. Counts from the mark `known`.
pub(crate) fn is_at(
    text: &[u8],
    encoding: Encoding,
    known: Mark,
    mention: &Mention,
    position: Position,
) -> (bool, Mark)
    requires { IsPositionOf encoding text.now known.byte known.position }
    ensures is { result.0 ≡ is_at encoding text.now position (mention_of mention.now) }
    ensures mark { IsPositionOf encoding text.now result.1.byte result.1.position }
{
    let place = mention.name.place;
    let (start, end) = ends_of(text, encoding, known, place.start, place.end);
    (is_within(start.position, position, end.position), start)
}

/// Returns the definitions of those of these names of a module that are at a position.
fn definitions_among(
    alloc: Global,
    encoding: Encoding,
    text: &[u8],
    uri: &str,
    position: Position,
    module: &Module,
    mentions: &[Mention],
) -> Result<Vec<Value>, OutOfMemory>
    ensures { IfOk result (λ v. map view v.items
        ≡ definitions_among encoding text.now uri.now position (module_of module.now) (map mention_of mentions.now)) }
{
    let mut values = Vec::new(alloc);
    let mut known = Mark::start();
    for mention in mentions {
        let (is, start) = is_at(text, encoding, known, mention, position);
        known = start;
        if is {
            let name = binding_of(alloc, module, mention)?;
            add_location(&mut values, alloc, encoding, text, uri, name)?;
        }
    }
    Ok(values)
}

/// Returns the definitions of the names of a module at a position.
fn definitions_in(
    alloc: Global,
    encoding: Encoding,
    text: &[u8],
    uri: &str,
    position: Position,
    module: &Module,
) -> Result<Vec<Value>, OutOfMemory>
    ensures { IfOk result (λ v. map view v.items
        ≡ definitions_in encoding text.now uri.now position (module_of module.now)) }
{
    let mentions = mentions(alloc, module)?;
    definitions_among(alloc, encoding, text, uri, position, module, &mentions)
}

/// Returns the definitions of the names at a position of a text; none if it is refused or not known.
fn text_definitions(
    alloc: Global,
    encoding: Encoding,
    text: &Option<String>,
    uri: &str,
    position: Position,
) -> Result<Vec<Value>, OutOfMemory>
    ensures { IfOk result (λ v. AreDefinitions encoding (option_map string_bytes text.now) uri.now position
        (map view v.items)) }
{
    let Some(text) = text else {
        return Ok(Vec::new(alloc));
    };
    let bytes = text.as_bytes();
    match read_module(alloc, bytes) {
        Ok(module) => {
            let found = definitions_in(alloc, encoding, bytes, uri, position, &module)?;
            Ok(found)
        }
        Err(fault) => {
            fault.refusal()?;
            Ok(Vec::new(alloc))
        }
    }
}

/// Returns the definitions of the names at a position of a document: the places where they are bound. There are none if
/// the document is not Python, is refused, or has no known text.
pub fn definitions_of(
    alloc: Global,
    settings: &Settings,
    document: &Document,
    position: Position,
) -> Result<Vec<Value>, OutOfMemory>
    ensures { IfOk result (λ v. AreDefinitionsAs settings.now.encoding document.now.python
        (option_map string_bytes document.now.text) (string_bytes document.now.uri) position (map view v.items)) }
{
    if document.python {
        let uri = document.uri.as_str();
        let found = text_definitions(alloc, settings.encoding, &document.text, uri, position)?;
        Ok(found)
    } else {
        Ok(Vec::new(alloc))
    }
}
