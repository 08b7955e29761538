//! Answers to notifications.

ghost use Rattle.std.specs.Prelude.{◌≡◌, ◌∷◌, [], IfOk, None, map, option_map, string_bytes};
ghost use Rattle.serde_json.specs.View.{view};
ghost use Rattle.pc_documents.specs.Documents.{opened_of};
ghost use Rattle.pc_session.specs.Answers.{after};
ghost use Rattle.pc_session.specs.Replies.{log_data};
ghost use Rattle.pc_session.specs.Sessions.{IsLetBe, RepliesAlone, IsKept, OnOpen, OnChange, OnClose, OnNotice, OnStage};
ghost use Rattle.pc_session.specs.Sessions.{OnNotification, changed_in, cleared, exit_status, named_document};
ghost use Rattle.pc_session.specs.States.{state_of};

use crate::messages::{LspMethod, changed_text, is_older, opened_text, uri_in, version_in};
use crate::published::published;
use crate::replies::{log, publish};
use crate::requests::named_document;
use crate::session::{Answer, Session, SessionChange, Stage};
use crate::settings::{copied_text, is_python};
use pc_documents::{Checker, Document, index_of_document};
use pc_source::OutOfMemory;
use serde_json::Value;
use std::alloc::Global;

/// Returns an answer without replies and without a change.
pub(crate) fn nothing(session: &Session, alloc: Global) -> Answer
    ensures { IsLetBe (state_of session.now) (map view result.replies.items)
        (after result.change (state_of session.now)) }
{
    let _ = session;
    Answer {
        replies: Vec::new(alloc),
        change: SessionChange::Nothing,
    }
}

/// Returns an answer with one reply and a change.
pub(crate) fn one(alloc: Global, reply: Value, change: SessionChange) -> Result<Answer, OutOfMemory>
    ensures reply { IfOk result (λ a. map view a.replies.items ≡ view reply ∷ []) }
    ensures change { IfOk result (λ a. a.change ≡ change) }
{
    let mut replies = Vec::with_capacity(alloc, 1)?;
    replies.push(reply)?;
    Ok(Answer { replies, change })
}

/// Returns an answer that writes a line to the client's log and changes nothing.
fn told(session: &Session, alloc: Global, text: &str) -> Result<Answer, OutOfMemory>
    ensures { IfOk result (λ a. RepliesAlone (log_data text.now) (state_of session.now) (map view a.replies.items)
        (after a.change (state_of session.now))) }
{
    let _ = session;
    let answer = one(alloc, log(alloc, text)?, SessionChange::Nothing)?;
    Ok(answer)
}

/// Keeps a document under its URI, in place of an earlier one, and publishes its diagnostics.
pub(crate) fn keep_document<C: Checker>(
    session: &Session,
    checker: &C,
    alloc: Global,
    document: Document,
) -> Result<Answer, OutOfMemory>
    ensures { IfOk result (λ a. IsKept (C.answers checker.now) (opened_of document)
        (state_of session.now) (map view a.replies.items) (after a.change (state_of session.now))) }
{
    let replies = published(checker, alloc, &session.settings, &document)?;
    Ok(Answer {
        replies,
        change: SessionChange::Put(document),
    })
}

/// Answers `textDocument/didOpen`.
fn opened<C: Checker>(
    session: &Session,
    checker: &C,
    alloc: Global,
    message: &Value,
) -> Result<Answer, OutOfMemory>
    ensures { IfOk result (λ a. OnOpen (C.answers checker.now) (view message.now) (state_of session.now)
        (map view a.replies.items) (after a.change (state_of session.now))) }
{
    match uri_in(message) {
        None => {
            let answer = told(session, alloc, "didOpen names no document")?;
            Ok(answer)
        }
        Some(uri) => {
            let document = Document {
                uri: String::from_str(alloc, uri)?,
                version: version_in(message),
                python: is_python(message),
                text: copied_text(alloc, opened_text(message))?,
            };
            let answer = keep_document(session, checker, alloc, document)?;
            Ok(answer)
        }
    }
}

/// Returns the text of a document, if it is known.
fn text_of(document: &Document) -> Option<&str>
    ensures { option_map (λ text. text.now) result ≡ option_map string_bytes document.now.text }
{
    match &document.text {
        None => None,
        Some(text) => Some(text.as_str()),
    }
}

/// Returns an open document after the changes in a message.
fn changed_in(alloc: Global, message: &Value, document: &Document) -> Result<Document, OutOfMemory>
    ensures { IfOk result (λ d. opened_of d ≡ changed_in (view message.now) (opened_of document.now)) }
{
    let text = changed_text(text_of(document), message);
    Ok(Document {
        uri: String::from_str(alloc, document.uri.as_str())?,
        version: version_in(message),
        python: document.python,
        text: copied_text(alloc, text)?,
    })
}

/// Answers a change that names no open document: the client's log says so.
#[tactic(auto, using(pc_documents::proofs::Rulesets::opens))]
fn unchanged<C: Checker>(
    session: &Session,
    checker: &C,
    alloc: Global,
    message: &Value,
) -> Result<Answer, OutOfMemory>
    requires { named_document (view message.now) (state_of session.now) ≡ None }
    ensures { IfOk result (λ a. OnChange (C.answers checker.now) (view message.now) (state_of session.now)
        (map view a.replies.items) (after a.change (state_of session.now))) }
{
    let _ = checker;
    let answer = match uri_in(message) {
        None => told(session, alloc, "didChange names no document")?,
        Some(_) => told(
            session,
            alloc,
            "didChange names a document that is not open",
        )?,
    };
    Ok(answer)
}

/// Answers `textDocument/didChange`. A change to an older version is ignored, and the client's log says so.
fn changed<C: Checker>(
    session: &Session,
    checker: &C,
    alloc: Global,
    message: &Value,
) -> Result<Answer, OutOfMemory>
    ensures { IfOk result (λ a. OnChange (C.answers checker.now) (view message.now) (state_of session.now)
        (map view a.replies.items) (after a.change (state_of session.now))) }
{
    let Some(document) = named_document(session, message) else {
        let answer = unchanged(session, checker, alloc, message)?;
        return Ok(answer);
    };
    if is_older(version_in(message), document.version) {
        let answer = told(
            session,
            alloc,
            "didChange gives an older version: it was let be",
        )?;
        return Ok(answer);
    }
    let answer = keep_document(
        session,
        checker,
        alloc,
        changed_in(alloc, message, document)?,
    )?;
    Ok(answer)
}

/// Returns the replies to the closing of a document: an empty publication, or nothing if the client pulls diagnostics.
fn cleared(alloc: Global, pulls: bool, uri: &str) -> Result<Vec<Value>, OutOfMemory>
    ensures { IfOk result (λ v. map view v.items ≡ cleared pulls uri.now) }
{
    let mut replies = Vec::new(alloc);
    if !pulls {
        replies.push(publish(alloc, uri, None, Vec::new(alloc))?)?;
    }
    Ok(replies)
}

/// Answers `textDocument/didClose`.
#[tactic(auto, using(pc_documents::proofs::Rulesets::closes))]
fn closed(session: &Session, alloc: Global, message: &Value) -> Result<Answer, OutOfMemory>
    ensures { IfOk result (λ a. OnClose (view message.now) (state_of session.now) (map view a.replies.items)
        (after a.change (state_of session.now))) }
{
    let Some(uri) = uri_in(message) else {
        let answer = told(session, alloc, "didClose names no document")?;
        return Ok(answer);
    };
    match index_of_document(&session.documents, uri) {
        None => {
            let answer = told(session, alloc, "didClose names a document that is not open")?;
            Ok(answer)
        }
        Some(place) => {
            let replies = cleared(alloc, session.settings.pulls, uri)?;
            Ok(Answer {
                replies,
                change: SessionChange::Remove(place),
            })
        }
    }
}

/// Answers a notification in a running session.
fn noticed<C: Checker>(
    session: &Session,
    checker: &C,
    alloc: Global,
    method: LspMethod,
    message: &Value,
) -> Result<Answer, OutOfMemory>
    ensures { IfOk result (λ a. OnNotice (C.answers checker.now) method (view message.now)
        (state_of session.now) (map view a.replies.items) (after a.change (state_of session.now))) }
{
    match method {
        LspMethod::DidOpen => opened(session, checker, alloc, message),
        LspMethod::DidChange => changed(session, checker, alloc, message),
        LspMethod::DidClose => closed(session, alloc, message),
        _ => Ok(nothing(session, alloc)),
    }
}

/// Returns the status with which the program ends after `exit`: 0 after `shutdown`, otherwise 1.
fn exit_status(stage: Stage) -> u8
    ensures { result ≡ exit_status stage }
{
    match stage {
        Stage::ShutDown => 0,
        Stage::Fresh | Stage::Running | Stage::Ended(_) => 1,
    }
}

/// Answers a notification other than `exit`; ignores it unless the session is running.
fn staged<C: Checker>(
    session: &Session,
    checker: &C,
    alloc: Global,
    method: LspMethod,
    message: &Value,
) -> Result<Answer, OutOfMemory>
    ensures { IfOk result (λ a. OnStage (C.answers checker.now) session.now.stage method (view message.now)
        (state_of session.now) (map view a.replies.items) (after a.change (state_of session.now))) }
{
    match session.stage {
        Stage::Running => noticed(session, checker, alloc, method, message),
        Stage::Fresh | Stage::ShutDown | Stage::Ended(_) => Ok(nothing(session, alloc)),
    }
}

/// Answers a notification.
pub(crate) fn notified<C: Checker>(
    session: &Session,
    checker: &C,
    alloc: Global,
    method: LspMethod,
    message: &Value,
) -> Result<Answer, OutOfMemory>
    ensures { IfOk result (λ a. OnNotification (C.answers checker.now) method session.now.stage (view message.now)
        (state_of session.now) (map view a.replies.items) (after a.change (state_of session.now))) }
{
    match method {
        LspMethod::Exit => {
            let status = exit_status(session.stage);
            Ok(Answer {
                replies: Vec::new(alloc),
                change: SessionChange::ToStage(Stage::Ended(status)),
            })
        }
        _ => staged(session, checker, alloc, method, message),
    }
}
