//! The hover text of a document.

ghost use Rattle.std.specs.Prelude.{IfOk, option_map, string_bytes};
ghost use Rattle.pc_documents.specs.Agreed.{agreed_of};
ghost use Rattle.pc_documents.specs.Hovers.{IsTypeSaid, IsToldOf, IsToldAs};

use crate::checker::Checker;
use crate::declarations::add_declaration;
use crate::documents::Document;
use crate::hover::{code_block, hover_text};
use crate::settings::Settings;
use pc_position::{Encoding, Position, byte_of};
use pc_source::OutOfMemory;
use std::alloc::Global;

/// Returns the type at a position of a text, as code in Markdown; empty if there is none.
fn type_of<C: Checker>(
    checker: &C,
    alloc: Global,
    encoding: Encoding,
    text: &str,
    position: Position,
) -> Result<String, OutOfMemory>
    ensures { IfOk result
        (λ s. IsTypeSaid (C.answers checker.now) encoding text.now position (string_bytes s)) }
{
    let Some(byte) = byte_of(text.as_bytes(), encoding, position) else {
        return Ok(String::new(alloc));
    };
    match checker.type_at(alloc, text, byte)? {
        Some(ty) => Ok(code_block(alloc, ty.as_str())?),
        None => Ok(String::new(alloc)),
    }
}

/// Returns the hover text at a position of a text; empty if the text is not known.
fn said_of<C: Checker>(
    checker: &C,
    alloc: Global,
    settings: &Settings,
    text: &Option<String>,
    position: Position,
) -> Result<String, OutOfMemory>
    ensures { IfOk result (λ s. IsToldOf (C.answers checker.now) (option_map string_bytes text.now) position
        (agreed_of settings.now) (string_bytes s)) }
{
    let Some(text) = text else {
        return Ok(String::new(alloc));
    };
    let text = text.as_str();
    let found = checker.find(alloc, text)?;
    let mut said = type_of(checker, alloc, settings.encoding, text, position)?;
    let bytes = text.as_bytes();
    add_declaration(alloc, &mut said, settings.encoding, bytes, position)?;
    Ok(hover_text(alloc, settings, bytes, &found, said, position)?)
}

/// Returns the hover text at a position of a document; empty if it is not Python.
pub fn said_as<C: Checker>(
    checker: &C,
    alloc: Global,
    settings: &Settings,
    document: &Document,
    position: Position,
) -> Result<String, OutOfMemory>
    ensures { IfOk result (λ s. IsToldAs (C.answers checker.now) document.now.python
        (option_map string_bytes document.now.text) position (agreed_of settings.now) (string_bytes s)) }
{
    if document.python {
        let said = said_of(checker, alloc, settings, &document.text, position)?;
        Ok(said)
    } else {
        Ok(String::new(alloc))
    }
}
