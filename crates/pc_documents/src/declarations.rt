//! The declaration of the name at a position of a text: the line on which the name is bound.

ghost use Rattle.std.specs.List.{prefix_len, suffix_len};
ghost use Rattle.std.specs.Prelude.{◌≡◌, ◌≤◌, IfOk, OnOk, length, map, option_map, string_bytes};
ghost use Rattle.pc_tree.specs.Lists.{name_seen};
ghost use Rattle.pc_tree.specs.Tree.{module_of};
ghost use Rattle.pc_bindings.specs.Written.{mention_of};
ghost use Rattle.pc_documents.specs.Declarations.{is_in_line, line_around, bare_line, whole_characters, declaration_on};
ghost use Rattle.pc_documents.specs.Declarations.{mention_under, bound_at, declaration_in};
ghost use Rattle.pc_documents.specs.Hovers.{with_declaration, IsDeclarationSaid};

use crate::definitions::is_at;
use crate::hover::{add_rule, code_block};
use pc_bindings::{Mention, binding_of, mentions};
use pc_front::read_module;
use pc_position::{Encoding, Mark, Position};
use pc_source::OutOfMemory;
use pc_tree::{Module, Name};
use std::alloc::Global;

/// The greatest length of a declaration, in bytes. Own rule of the server.
const DECLARATION_LIMIT: usize = 200;

/// Returns whether a byte is one of a line: any but a line feed.
fn is_in_line(byte: u8) -> bool
    ensures { result ≡ is_in_line byte }
{
    byte != b'\n'
}

/// Returns the number of bytes after the last line feed of a text.
fn length_after(text: &[u8]) -> usize
    ensures count { result ≡ suffix_len is_in_line text.now }
    ensures within { result ≤ length text.now }
{
    text.iter().rev().take_while(|b| is_in_line(**b)).count()
}

/// Returns the number of bytes before the first line feed of a text.
fn length_before(text: &[u8]) -> usize
    ensures count { result ≡ prefix_len is_in_line text.now }
    ensures within { result ≤ length text.now }
{
    text.iter().take_while(|b| is_in_line(**b)).count()
}

/// Returns the line of a byte, without its line feed; empty if the byte is past the end of the text.
#[tactic(auto, using(crate::proofs::Cutting::line_is))]
fn line_around(text: &[u8], byte: usize) -> &[u8]
    ensures { result.now ≡ line_around text.now byte }
{
    if byte > text.len() {
        return &[];
    }
    let (before, after) = text.split_at(byte);
    let start = byte - length_after(before);
    let end = byte + length_before(after);
    &text[start..end]
}

/// Returns a line without the white space at its start and at its end.
fn bare_line(line: &[u8]) -> &[u8]
    ensures { result.now ≡ bare_line line.now }
{
    line.trim_ascii()
}

/// Returns the longest front of a text that is whole characters of UTF-8.
#[tactic(auto, using(crate::proofs::Cutting::whole_is, crate::proofs::Cutting::front_is, crate::proofs::Cutting::front_reads))]
fn whole_characters(bytes: &[u8]) -> &str
    ensures { result.now ≡ whole_characters bytes.now }
{
    match str::from_utf8(bytes) {
        Ok(text) => text,
        Err(fault) => {
            let (front, _) = bytes.split_at(fault.valid_up_to());
            match str::from_utf8(front) {
                Ok(text) => text,
                Err(_) => "",
            }
        }
    }
}

/// Returns the declaration on the line of a byte: the line without the white space at its ends, as far as its whole
/// characters are within the limit.
#[tactic(auto, using(crate::proofs::Cutting::short_is))]
fn declaration_on(text: &[u8], byte: usize) -> &str
    ensures { result.now ≡ declaration_on text.now byte }
{
    let line = bare_line(line_around(text, byte));
    if line.len() <= DECLARATION_LIMIT {
        return whole_characters(line);
    }
    let (front, _) = line.split_at(DECLARATION_LIMIT);
    whole_characters(front)
}

/// Returns the first of these names that is at a position.
fn mention_under<'m>(
    text: &[u8],
    encoding: Encoding,
    mentions: &[Mention<'m>],
    position: Position,
) -> Option<Mention<'m>>
    ensures { option_map mention_of result ≡ mention_under encoding text.now position (map mention_of mentions.now) }
{
    let mut known = Mark::start();
    for mention in mentions {
        let (is, start) = is_at(text, encoding, known, mention, position);
        known = start;
        if is {
            return Some(*mention);
        }
    }
    None
}

/// Returns the name that binds the name of a module at a position, if there is one.
#[tactic(auto, using(crate::proofs::Declaring::one_bound, crate::proofs::Declaring::none_bound))]
fn bound_at<'m>(
    alloc: Global,
    encoding: Encoding,
    text: &[u8],
    position: Position,
    module: &'m Module,
) -> Result<Option<&'m Name>, OutOfMemory>
    ensures { IfOk result (λ n. option_map name_seen n ≡ bound_at encoding text.now position (module_of module.now)) }
{
    let mentions = mentions(alloc, module)?;
    let Some(mention) = mention_under(text, encoding, &mentions, position) else {
        return Ok(None);
    };
    let name = binding_of(alloc, module, &mention)?;
    Ok(name)
}

/// Appends the declaration of the name of a module at a position, if there is one, as code in Markdown below a horizontal
/// rule; without the rule if the text is empty.
#[tactic(auto, using(crate::proofs::Declaring::declared_is, crate::proofs::Declaring::undeclared_is))]
fn add_declaration_in(
    alloc: Global,
    told: &mut String,
    encoding: Encoding,
    text: &[u8],
    position: Position,
    module: &Module,
) -> Result<(), OutOfMemory>
    ensures { OnOk result (string_bytes told.new ≡ with_declaration (string_bytes told.old)
        (declaration_in encoding text.now position (module_of module.now))) }
{
    let Some(name) = bound_at(alloc, encoding, text, position, module)? else {
        return Ok(());
    };
    add_rule(told)?;
    let block = code_block(alloc, declaration_on(text, name.place.start))?;
    told.push_str(block.as_str())?;
    Ok(())
}

/// Appends the declaration of the name at a position of a text, if there is one, as code in Markdown below a horizontal
/// rule; without the rule if the hover text is empty. There is none in a text that is refused.
pub(crate) fn add_declaration(
    alloc: Global,
    told: &mut String,
    encoding: Encoding,
    text: &[u8],
    position: Position,
) -> Result<(), OutOfMemory>
    ensures { OnOk result (IsDeclarationSaid encoding text.now position (string_bytes told.old) (string_bytes told.new)) }
{
    match read_module(alloc, text) {
        Ok(module) => {
            add_declaration_in(alloc, told, encoding, text, position, &module)?;
            Ok(())
        }
        Err(fault) => {
            fault.refusal()?;
            Ok(())
        }
    }
}
