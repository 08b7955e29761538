//! Messages that are not JSON because an escape encodes half a character.

ghost use Rattle.std.specs.Prelude.{◌≡◌, IfOk, MatchOption, Option, None, Some, codes, option_map, IsUtf8};
ghost use Rattle.serde_json.specs.Find.{get};
ghost use Rattle.serde_json.specs.Read.{read};
ghost use Rattle.serde_json.specs.View.{view};
ghost use Rattle.pc_documents.specs.Documents.{opened_of};
ghost use Rattle.pc_session.specs.Spoiled.{escape_after, mended_byte, mended, opened_part, changed_part, spoiled_by};
ghost use Rattle.pc_session.specs.Spoiled.{spoiled_as, spoiled_in, IsMended, Spoils};
ghost use Rattle.pc_session.specs.States.{state_of};

use crate::messages::{LspMethod, method_in, uri_in, version_in};
use crate::requests::named_document;
use crate::session::{Session, Stage};
use crate::settings::is_python;
use pc_documents::Document;
use pc_source::OutOfMemory;
use serde_json::Value;
use std::alloc::{AllocError, Global};

/// Position of a byte of JSON relative to an escape: outside, after the backslash, or after the `u`.
#[derive(Clone, Copy)]
pub(crate) enum Escape {
    Outside,
    Backslash,
    Unicode,
}

/// Returns the position of the byte after `byte`.
fn escape_after(place: Escape, byte: u8) -> Escape
    ensures { result ≡ escape_after place byte }
{
    match place {
        Escape::Outside => {
            if byte == b'\\' {
                Escape::Backslash
            } else {
                Escape::Outside
            }
        }
        Escape::Backslash => {
            if byte == b'u' {
                Escape::Unicode
            } else {
                Escape::Outside
            }
        }
        Escape::Unicode => Escape::Outside,
    }
}

/// Returns the byte; `d` as the first digit of an escape becomes `e`, so that no escape encodes half a character.
fn mended_byte(place: Escape, byte: u8) -> u8
    ensures { result ≡ mended_byte place byte }
{
    match place {
        Escape::Outside | Escape::Backslash => byte,
        Escape::Unicode => {
            if byte == b'd' || byte == b'D' {
                b'e'
            } else {
                byte
            }
        }
    }
}

/// Returns the bytes with the first digits of all escapes mended.
#[tactic(auto, using(crate::proofs::Mending::mends_more, crate::proofs::Mending::mends_end))]
fn mended(alloc: Global, bytes: &[u8]) -> Result<Vec<u8>, AllocError>
    ensures { IfOk result (λ v. v.items ≡ mended bytes.now) }
{
    let mut mended = Vec::with_capacity(alloc, bytes.len())?;
    let mut place = Escape::Outside;
    for byte in bytes {
        mended.push(mended_byte(place, *byte))?;
        place = escape_after(place, *byte);
    }
    Ok(mended)
}

/// Returns the message that the mended bytes spell, if they are JSON.
fn mended_message(alloc: Global, bytes: &[u8]) -> Result<Option<Value>, OutOfMemory>
    ensures { IfOk result (λ message. MatchOption message (IsUtf8 (mended bytes.now) → read (mended bytes.now) ≡ None)
        (λ m. IsMended bytes.now (view m))) }
{
    let mended = mended(alloc, bytes)?;
    match Value::from_slice(alloc, &mended) {
        Ok(message) => Ok(Some(message)),
        // The kit's error says that an allocation failed, and does not keep the allocation's own error.
        Err(error) if error.is_memory() => Err(OutOfMemory::from(AllocError)),
        Err(_) => Ok(None),
    }
}

/// Returns the document that a message opens, without its text.
fn opened_part(alloc: Global, message: &Value, uri: &str) -> Result<Document, AllocError>
    ensures { IfOk result (λ d. opened_of d ≡ opened_part (view message.now) uri.now) }
{
    Ok(Document {
        uri: String::from_str(alloc, uri)?,
        version: version_in(message),
        python: is_python(message),
        text: None,
    })
}

/// Returns the document that a message changes, without its text.
fn changed_part(alloc: Global, message: &Value, document: &Document) -> Result<Document, AllocError>
    ensures { IfOk result (λ d. opened_of d ≡ changed_part (view message.now) (opened_of document.now)) }
{
    Ok(Document {
        uri: String::from_str(alloc, document.uri.as_str())?,
        version: version_in(message),
        python: document.python,
        text: None,
    })
}

/// Returns the document that a notification opens or changes, without its text.
fn spoiled_by(
    session: &Session,
    alloc: Global,
    method: LspMethod,
    message: &Value,
) -> Result<Option<Document>, OutOfMemory>
    ensures { IfOk result (λ d. option_map opened_of d ≡ spoiled_by method (view message.now) (state_of session.now)) }
{
    match method {
        LspMethod::DidOpen => match uri_in(message) {
            None => Ok(None),
            Some(uri) => Ok(Some(opened_part(alloc, message, uri)?)),
        },
        LspMethod::DidChange => match named_document(session, message) {
            None => Ok(None),
            Some(document) => Ok(Some(changed_part(alloc, message, document)?)),
        },
        _ => Ok(None),
    }
}

/// Returns the document that a message opens or changes, without its text; `None` for a request.
fn spoiled_as(
    session: &Session,
    alloc: Global,
    message: &Value,
) -> Result<Option<Document>, OutOfMemory>
    ensures { IfOk result (λ d. option_map opened_of d ≡ spoiled_as (get (codes "id") (view message.now))
        (view message.now) (state_of session.now)) }
{
    match message.get("id") {
        Some(_) => Ok(None),
        None => match method_in(message) {
            None => Ok(None),
            Some(method) => spoiled_by(session, alloc, method, message),
        },
    }
}

/// Returns the document whose text alone a message spoils, if there is one.
fn spoiled_in(
    session: &Session,
    alloc: Global,
    message: &Value,
) -> Result<Option<Document>, OutOfMemory>
    ensures { IfOk result (λ d. option_map opened_of d ≡ spoiled_in (view message.now) (state_of session.now)) }
{
    match session.stage {
        Stage::Running => spoiled_as(session, alloc, message),
        Stage::Fresh | Stage::ShutDown | Stage::Ended(_) => Ok(None),
    }
}

/// Returns the document whose text alone is spoiled by bytes that are not JSON, if there is one.
#[tactic(auto, using(crate::proofs::Mending::spoils, crate::proofs::Mending::spoils_none))]
pub(crate) fn spoiled(
    session: &Session,
    alloc: Global,
    bytes: &[u8],
) -> Result<Option<Document>, OutOfMemory>
    ensures { IfOk result (λ d. Spoils bytes.now (state_of session.now) (option_map opened_of d)) }
{
    match mended_message(alloc, bytes)? {
        None => Ok(None),
        Some(message) => spoiled_in(session, alloc, &message),
    }
}
