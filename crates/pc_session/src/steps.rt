//! Answers to messages, and the session after them.

ghost use Rattle.std.specs.Prelude.{◌≡◌, ◌++◌, IfOk, OnOk, OnErr, None, ◌∷◌, [], map, option_map, IsUtf8};
ghost use Rattle.serde_json.specs.Read.{read};
ghost use Rattle.serde_json.specs.View.{view};
ghost use Rattle.pc_documents.specs.Checked.{is_sent};
ghost use Rattle.pc_documents.specs.Documents.{opened_of};
ghost use Rattle.pc_session.specs.Answers.{after};
ghost use Rattle.pc_session.specs.Sent.{SendsStep, SendsRefusal};
ghost use Rattle.pc_session.specs.Sessions.{unknown_of, unknown_all, told_of, OnNoMethod, OnMethod, OnMessage};
ghost use Rattle.pc_session.specs.Sessions.{IsUnreadable, IsNotRead, Step};
ghost use Rattle.pc_session.specs.Spelled.{AreSpelled};
ghost use Rattle.pc_session.specs.States.{state_of};

use crate::messages::{LspMethod, is_identifier, is_reply, method_in};
use crate::notifications::{keep_document, nothing, notified};
use crate::replies::{ErrorCode, error_reply, log, publish};
use crate::requests::{refused, request};
use crate::session::{Answer, Session, SessionChange};
use crate::spoiled::spoiled;
use pc_documents::{Checker, Document, is_sent, unknown_values};
use pc_source::OutOfMemory;
use pc_wire::framed;
use serde_json::Value;
use std::alloc::{AllocError, Global};

/// Adds the publication that says that the text of a document is not known.
fn add_unknown(
    alloc: Global,
    document: &Document,
    replies: &mut Vec<Value>,
) -> Result<(), OutOfMemory>
    ensures { OnOk result (map view replies.new.items
        ≡ map view replies.old.items ++ unknown_of (opened_of document.now) ∷ []) }
{
    let uri = document.uri.as_str();
    let unknown = publish(alloc, uri, document.version, unknown_values(alloc)?)?;
    replies.push(unknown)?;
    Ok(())
}

/// Adds the publication that the text is not known, for each document whose diagnostics are published.
fn add_all_unknown(
    session: &Session,
    alloc: Global,
    replies: &mut Vec<Value>,
) -> Result<(), OutOfMemory>
    ensures { OnOk result (map view replies.new.items
        ≡ map view replies.old.items ++ unknown_all (state_of session.now)) }
{
    let settings = &session.settings;
    for document in &session.documents {
        if is_sent(settings, document) {
            add_unknown(alloc, document, replies)?;
        }
    }
    Ok(())
}

/// Adds the line for the client's log that texts were forgotten; nothing if no document is open.
#[tactic(auto, using(crate::proofs::Reading::told_some, crate::proofs::Reading::told_none))]
fn add_told(
    alloc: Global,
    documents: &[Document],
    replies: &mut Vec<Value>,
) -> Result<(), OutOfMemory>
    ensures { OnOk result (map view replies.new.items
        ≡ map view replies.old.items ++ told_of (map opened_of documents.now)) }
{
    if documents.is_empty() {
        return Ok(());
    }
    let text =
        "a message was not read: the texts of the open documents are not known until they change";
    replies.push(log(alloc, text)?)?;
    Ok(())
}

/// Answers an unreadable message: an error, and for each open document that its text is not known.
fn unreadable(session: &Session, alloc: Global, code: ErrorCode) -> Result<Answer, OutOfMemory>
    ensures { IfOk result (λ a. IsUnreadable code (state_of session.now) (map view a.replies.items)
        (after a.change (state_of session.now))) }
{
    let mut replies = Vec::new(alloc);
    replies.push(error_reply(alloc, &Value::Null, code)?)?;
    add_all_unknown(session, alloc, &mut replies)?;
    add_told(alloc, &session.documents, &mut replies)?;
    Ok(Answer {
        replies,
        change: SessionChange::Forget,
    })
}

/// Answers a message without a method.
fn without_method(
    session: &Session,
    alloc: Global,
    id: Option<&Value>,
    message: &Value,
) -> Result<Answer, OutOfMemory>
    ensures { IfOk result (λ a. OnNoMethod (option_map (λ v. view v.now) id.entry) (view message.now)
        (state_of session.now) (map view a.replies.items) (after a.change (state_of session.now))) }
{
    match id {
        None => refused(session, alloc, &Value::Null, ErrorCode::InvalidRequest),
        Some(id) => {
            if is_reply(message) {
                return Ok(nothing(session, alloc));
            }
            let answer = if is_identifier(id) {
                refused(session, alloc, id, ErrorCode::InvalidRequest)?
            } else {
                refused(session, alloc, &Value::Null, ErrorCode::InvalidRequest)?
            };
            Ok(answer)
        }
    }
}

/// Answers a message with a method.
fn with_method<C: Checker>(
    session: &Session,
    checker: &C,
    alloc: Global,
    method: LspMethod,
    id: Option<&Value>,
    message: &Value,
) -> Result<Answer, OutOfMemory>
    ensures { IfOk result (λ a. OnMethod (C.answers checker.now) method (option_map (λ v. view v.now) id.entry)
        (view message.now) (state_of session.now) (map view a.replies.items) (after a.change (state_of session.now))) }
{
    match id {
        None => notified(session, checker, alloc, method, message),
        Some(id) => {
            if is_identifier(id) {
                let answer = request(session, checker, alloc, id, method, message)?;
                Ok(answer)
            } else {
                let answer = refused(session, alloc, &Value::Null, ErrorCode::InvalidRequest)?;
                Ok(answer)
            }
        }
    }
}

/// Answers a message.
fn answered<C: Checker>(
    session: &Session,
    checker: &C,
    alloc: Global,
    message: &Value,
) -> Result<Answer, OutOfMemory>
    ensures { IfOk result (λ a. OnMessage (C.answers checker.now) (view message.now)
        (state_of session.now) (map view a.replies.items) (after a.change (state_of session.now))) }
{
    let id = message.get("id");
    match method_in(message) {
        None => {
            let answer = without_method(session, alloc, id, message)?;
            Ok(answer)
        }
        Some(method) => {
            let answer = with_method(session, checker, alloc, method, id, message)?;
            Ok(answer)
        }
    }
}

/// Answers bytes that are not JSON: the text of one document, or of all, is not known from then on.
fn unread<C: Checker>(
    session: &Session,
    checker: &C,
    alloc: Global,
    message: &[u8],
) -> Result<Answer, OutOfMemory>
    requires { IsUtf8 message.now → read message.now ≡ None }
    ensures { IfOk result (λ a. IsNotRead (C.answers checker.now) message.now (state_of session.now)
        (map view a.replies.items) (after a.change (state_of session.now))) }
{
    match spoiled(session, alloc, message)? {
        None => {
            let answer = unreadable(session, alloc, ErrorCode::ParseError)?;
            Ok(answer)
        }
        Some(document) => {
            let answer = keep_document(session, checker, alloc, document)?;
            Ok(answer)
        }
    }
}

/// Answers the bytes of a message.
fn read<C: Checker>(
    session: &Session,
    checker: &C,
    alloc: Global,
    message: &[u8],
) -> Result<Answer, OutOfMemory>
    ensures { IfOk result (λ a. Step (C.answers checker.now) (state_of session.now) message.now
        (map view a.replies.items) (after a.change (state_of session.now))) }
{
    match Value::from_slice(alloc, message) {
        Ok(value) => {
            let answer = answered(session, checker, alloc, &value)?;
            Ok(answer)
        }
        // The kit's error says that an allocation failed, and does not keep the allocation's own error.
        Err(error) if error.is_memory() => Err(OutOfMemory::from(AllocError)),
        Err(_) => {
            let answer = unread(session, checker, alloc, message)?;
            Ok(answer)
        }
    }
}

/// Returns the frames of replies, in order.
fn frames(alloc: Global, replies: &[Value]) -> Result<Vec<u8>, OutOfMemory>
    ensures { IfOk result (λ bytes. AreSpelled (map view replies.now) bytes.items) }
{
    let mut bytes = Vec::new(alloc);
    for reply in replies {
        let text = reply.to_vec(alloc)?;
        let framed = framed(alloc, &text)?;
        bytes.extend_from_slice(&framed)?;
    }
    Ok(bytes)
}

/// Handles a message: returns the frames of the replies to it, in order, and updates the session.
///
/// # Errors
///
/// `OutOfMemory` only when an allocation failed; the session is unchanged then.
pub fn step<C: Checker>(
    session: &mut Session,
    checker: &C,
    alloc: Global,
    message: &[u8],
) -> Result<Vec<u8>, OutOfMemory>
    ensures step { IfOk result (λ bytes. SendsStep (C.answers checker.now) (state_of session.old) message.now bytes.items
        (state_of session.new)) }
    ensures unchanged { OnErr result (state_of session.new ≡ state_of session.old) }
{
    let Answer { replies, change } = read(session, checker, alloc, message)?;
    let bytes = frames(alloc, &replies)?;
    session.apply(change)?;
    Ok(bytes)
}

/// Handles a message over the limit: returns the frames of an error and of the publications that say that the texts of
/// the open documents are not known, and forgets these texts.
///
/// # Errors
///
/// `OutOfMemory` only when an allocation failed; the session is unchanged then.
pub fn refuse_long(session: &mut Session, alloc: Global) -> Result<Vec<u8>, OutOfMemory>
    ensures refused { IfOk result (λ bytes. SendsRefusal (state_of session.old) bytes.items (state_of session.new)) }
    ensures unchanged { OnErr result (state_of session.new ≡ state_of session.old) }
{
    let Answer { replies, change } = unreadable(session, alloc, ErrorCode::TooLong)?;
    let bytes = frames(alloc, &replies)?;
    session.apply(change)?;
    Ok(bytes)
}
