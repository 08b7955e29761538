//! Replies and notifications as JSON.

ghost use Rattle.std.specs.Prelude.{◌≡◌, IfOk, map};
ghost use Rattle.serde_json.specs.View.{view};
ghost use Rattle.pc_session.specs.Replies.{published_data, publish_data, log_data, result_data, error_data, full_data};
ghost use Rattle.pc_session.specs.Replies.{number_of, error_text, refusal_of, encoding_name, capabilities_data};
ghost use Rattle.pc_session.specs.Replies.{hover_data};

use pc_position::Encoding;
use serde_json::{Value, json};
use std::alloc::{AllocError, Global};

/// Errors of the protocol. Language Server Protocol 3.17, "ErrorCodes".
#[derive(Clone, Copy)]
pub(crate) enum ErrorCode {
    ParseError,
    InvalidRequest,
    MethodNotFound,
    InvalidParams,
    ServerNotInitialized,
    TooLong,
}

impl ErrorCode {
    /// Returns the number of the error.
    fn number(self) -> i64
        ensures { result ≡ number_of self }
    {
        match self {
            ErrorCode::ParseError => -32700,
            ErrorCode::InvalidRequest | ErrorCode::TooLong => -32600,
            ErrorCode::MethodNotFound => -32601,
            ErrorCode::InvalidParams => -32602,
            ErrorCode::ServerNotInitialized => -32002,
        }
    }

    /// Returns the text of the error.
    fn text(self) -> &'static str
        ensures { result.now ≡ error_text self }
    {
        match self {
            ErrorCode::ParseError => "the message is no JSON",
            ErrorCode::InvalidRequest => "the message is no request",
            ErrorCode::MethodNotFound => "the method is not known",
            ErrorCode::InvalidParams => "the parameters do not fit the method",
            ErrorCode::ServerNotInitialized => "the session has not begun",
            ErrorCode::TooLong => "the message is longer than 16,777,216 bytes",
        }
    }
}

/// Returns the reply to the request `id` with a result.
pub(crate) fn result_reply(alloc: Global, id: &Value, value: Value) -> Result<Value, AllocError>
    ensures { IfOk result (λ v. view v ≡ result_data (view id.now) (view value)) }
{
    json!(in alloc; {"id": id, "jsonrpc": "2.0", "result": value})
}

/// Returns the reply to the request `id` with the number and the text of an error.
fn error_value(alloc: Global, id: &Value, number: i64, text: &str) -> Result<Value, AllocError>
    ensures { IfOk result (λ v. view v ≡ error_data (view id.now) number text.now) }
{
    json!(in alloc; {"error": {"code": number, "message": text}, "id": id, "jsonrpc": "2.0"})
}

/// Returns the reply to the request `id` with an error.
pub(crate) fn error_reply(alloc: Global, id: &Value, code: ErrorCode) -> Result<Value, AllocError>
    ensures { IfOk result (λ v. view v ≡ refusal_of code (view id.now)) }
{
    error_value(alloc, id, code.number(), code.text())
}

/// Returns the parameters of a `publishDiagnostics` notification.
fn published(
    alloc: Global,
    uri: &str,
    version: Option<i64>,
    diagnostics: Vec<Value>,
) -> Result<Value, AllocError>
    ensures { IfOk result (λ v. view v ≡ published_data uri.now version (map view diagnostics.items)) }
{
    let diagnostics = Value::Array(diagnostics);
    match version {
        None => json!(in alloc; {"diagnostics": diagnostics, "uri": uri}),
        Some(version) => {
            json!(in alloc; {"diagnostics": diagnostics, "uri": uri, "version": version})
        }
    }
}

/// Returns the `publishDiagnostics` notification of a document.
pub(crate) fn publish(
    alloc: Global,
    uri: &str,
    version: Option<i64>,
    diagnostics: Vec<Value>,
) -> Result<Value, AllocError>
    ensures { IfOk result (λ v. view v ≡ publish_data uri.now version (map view diagnostics.items)) }
{
    let params = published(alloc, uri, version, diagnostics)?;
    json!(in alloc; {
        "jsonrpc": "2.0",
        "method": "textDocument/publishDiagnostics",
        "params": params
    })
}

/// Returns the notification that writes a warning to the client's log.
pub(crate) fn log(alloc: Global, text: &str) -> Result<Value, AllocError>
    ensures { IfOk result (λ v. view v ≡ log_data text.now) }
{
    json!(in alloc; {
        "jsonrpc": "2.0",
        "method": "window/logMessage",
        "params": {"message": text, "type": 2u64}
    })
}

/// Returns the name of an encoding. Language Server Protocol 3.17, "PositionEncodingKind".
fn name_of(encoding: Encoding) -> &'static str
    ensures { result.now ≡ encoding_name encoding }
{
    match encoding {
        Encoding::Utf8 => "utf-8",
        Encoding::Utf16 => "utf-16",
        Encoding::Utf32 => "utf-32",
    }
}

/// Returns the capabilities of the server, as the result of `initialize`.
pub(crate) fn capabilities(alloc: Global, encoding: Encoding) -> Result<Value, AllocError>
    ensures { IfOk result (λ v. view v ≡ capabilities_data encoding) }
{
    let encoding = name_of(encoding);
    json!(in alloc; {
        "capabilities": {
            "definitionProvider": true,
            "diagnosticProvider": {"interFileDependencies": false, "workspaceDiagnostics": false},
            "documentSymbolProvider": true,
            "hoverProvider": true,
            "positionEncoding": encoding,
            "textDocumentSync": {"change": 1, "openClose": true}
        },
        "serverInfo": {"name": "pycheck", "version": "1.0.0"}
    })
}

/// Returns the result of a `textDocument/diagnostic` request.
pub(crate) fn full_report(alloc: Global, diagnostics: Vec<Value>) -> Result<Value, AllocError>
    ensures { IfOk result (λ v. view v ≡ full_data (map view diagnostics.items)) }
{
    let items = Value::Array(diagnostics);
    json!(in alloc; {"items": items, "kind": "full"})
}

/// Returns the result of a `textDocument/hover` request; null for an empty text.
pub(crate) fn hover_result(alloc: Global, markdown: &str) -> Result<Value, AllocError>
    ensures { IfOk result (λ v. view v ≡ hover_data markdown.now) }
{
    if markdown.is_empty() {
        return Ok(Value::Null);
    }
    json!(in alloc; {"contents": {"kind": "markdown", "value": markdown}})
}
