//! Answers to requests.

ghost use Rattle.std.specs.Prelude.{◌≡◌, IfOk, map, option_map};
ghost use Rattle.serde_json.specs.View.{view};
ghost use Rattle.pc_documents.specs.Documents.{opened_of};
ghost use Rattle.pc_session.specs.Answers.{after};
ghost use Rattle.pc_session.specs.Replies.{refusal_of};
ghost use Rattle.pc_session.specs.Sessions.{RepliesAlone, IsPulled, IsHovered, IsSymbolReply, IsLocated, OnRunning};
ghost use Rattle.pc_session.specs.Sessions.{OnFresh, OnRequest, named_document};
ghost use Rattle.pc_session.specs.States.{state_of};

use crate::messages::{LspMethod, position_in, uri_in};
use crate::notifications::one;
use crate::replies::{
    ErrorCode, capabilities, error_reply, full_report, hover_result, result_reply,
};
use crate::session::{Answer, Session, SessionChange, Stage};
use crate::settings::settings_in;
use pc_documents::{
    Checker, Document, checked_as, definitions_of, document_of, said_as, symbols_of,
};
use pc_source::OutOfMemory;
use serde_json::Value;
use std::alloc::Global;

/// Returns an answer with one error reply and no change.
pub(crate) fn refused(
    session: &Session,
    alloc: Global,
    id: &Value,
    code: ErrorCode,
) -> Result<Answer, OutOfMemory>
    ensures { IfOk result (λ a. RepliesAlone (refusal_of code (view id.now)) (state_of session.now)
        (map view a.replies.items) (after a.change (state_of session.now))) }
{
    let _ = session;
    let answer = one(alloc, error_reply(alloc, id, code)?, SessionChange::Nothing)?;
    Ok(answer)
}

/// Returns the open document that a message names, if any.
pub(crate) fn named_document<'a>(session: &'a Session, message: &Value) -> Option<&'a Document>
    ensures { option_map (λ d. opened_of d.now) result ≡ named_document (view message.now) (state_of session.now) }
{
    let uri = uri_in(message)?;
    document_of(&session.documents, uri)
}

/// Returns the reply to a `textDocument/hover` request.
fn hovered<C: Checker>(
    session: &Session,
    checker: &C,
    alloc: Global,
    id: &Value,
    message: &Value,
) -> Result<Value, OutOfMemory>
    ensures { IfOk result (λ v. IsHovered (C.answers checker.now) (view message.now) (view id.now)
        (state_of session.now) (view v)) }
{
    let Some(document) = named_document(session, message) else {
        let refused = error_reply(alloc, id, ErrorCode::InvalidParams)?;
        return Ok(refused);
    };
    let Some(position) = position_in(message) else {
        let refused = error_reply(alloc, id, ErrorCode::InvalidParams)?;
        return Ok(refused);
    };
    let said = said_as(checker, alloc, &session.settings, document, position)?;
    let result = hover_result(alloc, said.as_str())?;
    let reply = result_reply(alloc, id, result)?;
    Ok(reply)
}

/// Returns the reply to a `textDocument/diagnostic` request.
fn pulled<C: Checker>(
    session: &Session,
    checker: &C,
    alloc: Global,
    id: &Value,
    message: &Value,
) -> Result<Value, OutOfMemory>
    ensures { IfOk result (λ v. IsPulled (C.answers checker.now) (view message.now) (view id.now)
        (state_of session.now) (view v)) }
{
    let Some(document) = named_document(session, message) else {
        let refused = error_reply(alloc, id, ErrorCode::InvalidParams)?;
        return Ok(refused);
    };
    let diagnostics = checked_as(checker, alloc, &session.settings, document)?;
    let result = full_report(alloc, diagnostics)?;
    let reply = result_reply(alloc, id, result)?;
    Ok(reply)
}

/// Returns the reply to a `textDocument/documentSymbol` request.
fn listed(
    session: &Session,
    alloc: Global,
    id: &Value,
    message: &Value,
) -> Result<Value, OutOfMemory>
    ensures { IfOk result (λ v. IsSymbolReply (view message.now) (view id.now) (state_of session.now) (view v)) }
{
    let Some(document) = named_document(session, message) else {
        let refused = error_reply(alloc, id, ErrorCode::InvalidParams)?;
        return Ok(refused);
    };
    let symbols = symbols_of(alloc, &session.settings, document)?;
    let result = Value::Array(symbols);
    let reply = result_reply(alloc, id, result)?;
    Ok(reply)
}

/// Returns the reply to a `textDocument/definition` request.
fn located(
    session: &Session,
    alloc: Global,
    id: &Value,
    message: &Value,
) -> Result<Value, OutOfMemory>
    ensures { IfOk result (λ v. IsLocated (view message.now) (view id.now) (state_of session.now) (view v)) }
{
    let Some(document) = named_document(session, message) else {
        let refused = error_reply(alloc, id, ErrorCode::InvalidParams)?;
        return Ok(refused);
    };
    let Some(position) = position_in(message) else {
        let refused = error_reply(alloc, id, ErrorCode::InvalidParams)?;
        return Ok(refused);
    };
    let definitions = definitions_of(alloc, &session.settings, document, position)?;
    let result = Value::Array(definitions);
    let reply = result_reply(alloc, id, result)?;
    Ok(reply)
}

/// Answers a request in a running session.
fn requested<C: Checker>(
    session: &Session,
    checker: &C,
    alloc: Global,
    id: &Value,
    method: LspMethod,
    message: &Value,
) -> Result<Answer, OutOfMemory>
    ensures { IfOk result (λ a. OnRunning (C.answers checker.now) method (view id.now) (view message.now)
        (state_of session.now) (map view a.replies.items) (after a.change (state_of session.now))) }
{
    match method {
        LspMethod::Shutdown => {
            let reply = result_reply(alloc, id, Value::Null)?;
            let answer = one(alloc, reply, SessionChange::ToStage(Stage::ShutDown))?;
            Ok(answer)
        }
        LspMethod::Hover => {
            let reply = hovered(session, checker, alloc, id, message)?;
            let answer = one(alloc, reply, SessionChange::Nothing)?;
            Ok(answer)
        }
        LspMethod::Diagnostic => {
            let reply = pulled(session, checker, alloc, id, message)?;
            let answer = one(alloc, reply, SessionChange::Nothing)?;
            Ok(answer)
        }
        LspMethod::DocumentSymbol => {
            let reply = listed(session, alloc, id, message)?;
            let answer = one(alloc, reply, SessionChange::Nothing)?;
            Ok(answer)
        }
        LspMethod::Definition => {
            let reply = located(session, alloc, id, message)?;
            let answer = one(alloc, reply, SessionChange::Nothing)?;
            Ok(answer)
        }
        LspMethod::CodeAction => {
            let reply = result_reply(alloc, id, Value::Array(Vec::new(alloc)))?;
            let answer = one(alloc, reply, SessionChange::Nothing)?;
            Ok(answer)
        }
        LspMethod::Initialize => refused(session, alloc, id, ErrorCode::InvalidRequest),
        _ => refused(session, alloc, id, ErrorCode::MethodNotFound),
    }
}

/// Answers `initialize`, or rejects another request that arrives before it.
fn begun(
    session: &Session,
    alloc: Global,
    id: &Value,
    method: LspMethod,
    message: &Value,
) -> Result<Answer, OutOfMemory>
    ensures { IfOk result (λ a. OnFresh method (view id.now) (view message.now)
        (state_of session.now) (map view a.replies.items) (after a.change (state_of session.now))) }
{
    match method {
        LspMethod::Initialize => {
            let settings = settings_in(alloc, message)?;
            let result = capabilities(alloc, settings.encoding)?;
            let reply = result_reply(alloc, id, result)?;
            let answer = one(alloc, reply, SessionChange::Begin(settings))?;
            Ok(answer)
        }
        _ => refused(session, alloc, id, ErrorCode::ServerNotInitialized),
    }
}

/// Answers a request.
pub(crate) fn request<C: Checker>(
    session: &Session,
    checker: &C,
    alloc: Global,
    id: &Value,
    method: LspMethod,
    message: &Value,
) -> Result<Answer, OutOfMemory>
    ensures { IfOk result (λ a. OnRequest (C.answers checker.now) session.now.stage method (view id.now)
        (view message.now) (state_of session.now) (map view a.replies.items) (after a.change (state_of session.now))) }
{
    match session.stage {
        Stage::Fresh => begun(session, alloc, id, method, message),
        Stage::Running => requested(session, checker, alloc, id, method, message),
        Stage::ShutDown | Stage::Ended(_) => {
            refused(session, alloc, id, ErrorCode::InvalidRequest)
        }
    }
}
