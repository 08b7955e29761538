//! The symbols of a text: the classes, functions and constants of its module, and the members of classes.

ghost use Rattle.std.specs.Prelude.{◌≡◌, IfOk, map, option_map, string_bytes};
ghost use Rattle.serde_json.specs.View.{view};
ghost use Rattle.pc_tree.specs.Tree.{name_of, member_of, item_of};
ghost use Rattle.pc_position.specs.Positions.{IsPositionOf};
ghost use Rattle.pc_documents.specs.Symbols.{named_data, symbol_data, kind_of_member, kind_of_item, start_of_item};
ghost use Rattle.pc_documents.specs.Symbols.{members_of_item, member_data, shown_member, shown_item};
ghost use Rattle.pc_documents.specs.Symbols.{AreSymbols, AreSymbolsAs};

use crate::documents::Document;
use crate::ranges::range_value;
use crate::settings::Settings;
use pc_front::read_module;
use pc_position::{Encoding, Mark, Position, mark_after};
use pc_source::OutOfMemory;
use pc_tree::{Item, ItemKind, Member, Name};
use serde_json::{Value, json};
use std::alloc::{AllocError, Global};

/// Returns the protocol's number for the kind of a member.
fn kind_of_member(member: &Member) -> u64
    ensures { result ≡ kind_of_member (member_of member.now) }
{
    match member {
        Member::Field(_) => 8,
        Member::Method(_) => 6,
    }
}

/// Returns the protocol's number for the kind of an item.
fn kind_of_item(item: &Item) -> u64
    ensures { result ≡ kind_of_item (item_of item.now) }
{
    match item.kind {
        ItemKind::Constant(_) => 14,
        ItemKind::Class(_) => 5,
        ItemKind::Def(_) => 12,
    }
}

/// Returns the first byte of an item.
#[tactic(auto, using(crate::proofs::Listing::start_is))]
fn start_of_item(item: &Item) -> usize
    ensures { result ≡ start_of_item (item_of item.now) }
{
    item.first.start
}

/// Returns the symbol with this kind, name and parts, given its range and that of its name.
fn named_value(
    alloc: Global,
    kind: u64,
    name: &str,
    parts: Vec<Value>,
    range: Value,
    chosen: Value,
) -> Result<Value, AllocError>
    ensures { IfOk result (λ v. view v
        ≡ named_data kind name.now (map view parts.items) (view range) (view chosen)) }
{
    let children = Value::Array(parts);
    json!(in alloc; {
        "children": children,
        "kind": kind,
        "name": name,
        "range": range,
        "selectionRange": chosen
    })
}

/// Returns the symbol with this name, given the positions of its first byte and of the ends of its name.
fn symbol_value(
    alloc: Global,
    kind: u64,
    name: &Name,
    first: Position,
    from: Position,
    to: Position,
    parts: Vec<Value>,
) -> Result<Value, AllocError>
    ensures { IfOk result (λ v. (encoding : _) (text : _) (start : _)
        → IsPositionOf encoding text start first → IsPositionOf encoding text (name_of name.now).place.start from
        → IsPositionOf encoding text (name_of name.now).place.end to
        → view v ≡ symbol_data encoding text kind (name_of name.now) start (map view parts.items)) }
{
    let range = range_value(alloc, first, to)?;
    let chosen = range_value(alloc, from, to)?;
    named_value(alloc, kind, name.text.as_str(), parts, range, chosen)
}

/// Returns the symbol of a member, and the mark of the end of its name. Counts from the mark `known`.
fn member_value(
    alloc: Global,
    encoding: Encoding,
    text: &[u8],
    known: Mark,
    member: &Member,
) -> Result<(Value, Mark), AllocError>
    requires { IsPositionOf encoding text.now known.byte known.position }
    ensures value { IfOk result (λ r. view r.0 ≡ shown_member encoding text.now member.now) }
    ensures mark { IfOk result (λ r. IsPositionOf encoding text.now r.1.byte r.1.position) }
{
    let name = member.name();
    let start = mark_after(text, encoding, known, name.place.start);
    let end = mark_after(text, encoding, start, name.place.end);
    let (from, to) = (start.position, end.position);
    let value = symbol_value(
        alloc,
        kind_of_member(member),
        name,
        from,
        from,
        to,
        Vec::new(alloc),
    )?;
    Ok((value, end))
}

/// Returns the symbols of members in order, and the mark of the end of the last name. Counts from the mark `known`.
fn member_values(
    alloc: Global,
    encoding: Encoding,
    text: &[u8],
    known: Mark,
    members: &[Member],
) -> Result<(Vec<Value>, Mark), AllocError>
    requires { IsPositionOf encoding text.now known.byte known.position }
    ensures value { IfOk result (λ r. map view r.0.items ≡ map (shown_member encoding text.now) members.now) }
    ensures mark { IfOk result (λ r. IsPositionOf encoding text.now r.1.byte r.1.position) }
{
    let mut values = Vec::with_capacity(alloc, members.len())?;
    let mut known = known;
    for member in members {
        let (value, end) = member_value(alloc, encoding, text, known, member)?;
        values.push(value)?;
        known = end;
    }
    Ok((values, known))
}

/// Returns the symbols of an item's members, and the mark of the end of the last name. Counts from the mark `known`.
fn parts_of(
    alloc: Global,
    encoding: Encoding,
    text: &[u8],
    known: Mark,
    item: &Item,
) -> Result<(Vec<Value>, Mark), AllocError>
    requires { IsPositionOf encoding text.now known.byte known.position }
    ensures value { IfOk result (λ r. map view r.0.items
        ≡ map (member_data encoding text.now) (members_of_item (item_of item.now))) }
    ensures mark { IfOk result (λ r. IsPositionOf encoding text.now r.1.byte r.1.position) }
{
    match &item.kind {
        ItemKind::Class(class) => member_values(alloc, encoding, text, known, &class.members),
        ItemKind::Constant(_) | ItemKind::Def(_) => Ok((Vec::new(alloc), known)),
    }
}

/// Returns the symbol of an item, and the mark of the end of the last name in it. Counts from the mark `known`.
fn item_symbol(
    alloc: Global,
    encoding: Encoding,
    text: &[u8],
    known: Mark,
    item: &Item,
) -> Result<(Value, Mark), AllocError>
    requires { IsPositionOf encoding text.now known.byte known.position }
    ensures value { IfOk result (λ r. view r.0 ≡ shown_item encoding text.now item.now) }
    ensures mark { IfOk result (λ r. IsPositionOf encoding text.now r.1.byte r.1.position) }
{
    let name = item.name();
    let first = mark_after(text, encoding, known, start_of_item(item));
    let from = mark_after(text, encoding, first, name.place.start);
    let to = mark_after(text, encoding, from, name.place.end);
    let (parts, last) = parts_of(alloc, encoding, text, to, item)?;
    let (first, from, to) = (first.position, from.position, to.position);
    let value = symbol_value(alloc, kind_of_item(item), name, first, from, to, parts)?;
    Ok((value, last))
}

/// Returns the symbols of items, in order.
fn item_symbols(
    alloc: Global,
    encoding: Encoding,
    text: &[u8],
    items: &[Item],
) -> Result<Vec<Value>, AllocError>
    ensures { IfOk result (λ v. map view v.items ≡ map (shown_item encoding text.now) items.now) }
{
    let mut values = Vec::with_capacity(alloc, items.len())?;
    let mut known = Mark::start();
    for item in items {
        let (value, last) = item_symbol(alloc, encoding, text, known, item)?;
        values.push(value)?;
        known = last;
    }
    Ok(values)
}

/// Returns the symbols of a text; none if it is refused or not known.
fn text_symbols(
    alloc: Global,
    encoding: Encoding,
    text: &Option<String>,
) -> Result<Vec<Value>, OutOfMemory>
    ensures { IfOk result (λ v. AreSymbols encoding (option_map string_bytes text.now) (map view v.items)) }
{
    let Some(text) = text else {
        return Ok(Vec::new(alloc));
    };
    let bytes = text.as_bytes();
    match read_module(alloc, bytes) {
        Ok(module) => Ok(item_symbols(alloc, encoding, bytes, &module.items)?),
        Err(fault) => {
            fault.refusal()?;
            Ok(Vec::new(alloc))
        }
    }
}

/// Returns the symbols of a document, in text order; none if it is not Python, is refused, or has no known text.
pub fn symbols_of(
    alloc: Global,
    settings: &Settings,
    document: &Document,
) -> Result<Vec<Value>, OutOfMemory>
    ensures { IfOk result (λ v. AreSymbolsAs settings.now.encoding document.now.python
        (option_map string_bytes document.now.text) (map view v.items)) }
{
    if document.python {
        let symbols = text_symbols(alloc, settings.encoding, &document.text)?;
        Ok(symbols)
    } else {
        Ok(Vec::new(alloc))
    }
}
