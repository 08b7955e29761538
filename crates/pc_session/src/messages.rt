//! Readers of the members of messages.

ghost use Rattle.std.specs.Prelude.{◌≡◌, Option, option_map};
ghost use Rattle.serde_json.specs.View.{view};
ghost use Rattle.pc_session.specs.Messages.{method_named, method_in, is_identifier, is_reply, parameter, inside};
ghost use Rattle.pc_session.specs.Messages.{uri_in, version_in, opened_text, whole_text, changed_text, place_in};
ghost use Rattle.pc_session.specs.Messages.{position_in, is_older};

use pc_position::Position;
use serde_json::Value;

/// Methods that the server knows. Language Server Protocol 3.17.
#[derive(Clone, Copy)]
pub(crate) enum LspMethod {
    Initialize,
    Initialized,
    Shutdown,
    Exit,
    DidOpen,
    DidChange,
    DidSave,
    DidClose,
    Hover,
    Diagnostic,
    CodeAction,
    DocumentSymbol,
    Definition,
    Other,
}

/// Returns the method with this name.
fn method_named(name: &str) -> LspMethod
    ensures { result ≡ method_named name.now }
{
    match name {
        "initialize" => LspMethod::Initialize,
        "initialized" => LspMethod::Initialized,
        "shutdown" => LspMethod::Shutdown,
        "exit" => LspMethod::Exit,
        "textDocument/didOpen" => LspMethod::DidOpen,
        "textDocument/didChange" => LspMethod::DidChange,
        "textDocument/didSave" => LspMethod::DidSave,
        "textDocument/didClose" => LspMethod::DidClose,
        "textDocument/hover" => LspMethod::Hover,
        "textDocument/diagnostic" => LspMethod::Diagnostic,
        "textDocument/codeAction" => LspMethod::CodeAction,
        "textDocument/documentSymbol" => LspMethod::DocumentSymbol,
        "textDocument/definition" => LspMethod::Definition,
        _ => LspMethod::Other,
    }
}

/// Returns the method that a message names, if it names one.
pub(crate) fn method_in(message: &Value) -> Option<LspMethod>
    ensures { result ≡ method_in (view message.now) }
{
    match message.get("method")?.as_str() {
        None => None,
        Some(name) => Some(method_named(name)),
    }
}

/// Returns whether a value is a valid request identifier.
pub(crate) fn is_identifier(value: &Value) -> bool
    ensures { result ≡ is_identifier (view value.now) }
{
    value.is_string() || value.is_number() || value.is_null()
}

/// Returns whether a message without a method is a reply.
pub(crate) fn is_reply(message: &Value) -> bool
    ensures { result ≡ is_reply (view message.now) }
{
    message.get("result").is_some() || message.get("error").is_some()
}

/// Returns the parameter `name` of a message.
pub(crate) fn parameter<'a>(message: &'a Value, name: &str) -> Option<&'a Value>
    ensures { option_map (λ v. view v.now) result ≡ parameter name.now (view message.now) }
{
    message.get("params")?.get(name)
}

/// Returns the member `inner` of the parameter `name`.
pub(crate) fn inside<'a>(message: &'a Value, name: &str, inner: &str) -> Option<&'a Value>
    ensures { option_map (λ v. view v.now) result ≡ inside name.now inner.now (view message.now) }
{
    parameter(message, name)?.get(inner)
}

/// Returns the URI of the document that a message names.
pub(crate) fn uri_in(message: &Value) -> Option<&str>
    ensures { option_map (λ text. text.now) result ≡ uri_in (view message.now) }
{
    inside(message, "textDocument", "uri")?.as_str()
}

/// Returns the document version that a message gives.
pub(crate) fn version_in(message: &Value) -> Option<i64>
    ensures { result ≡ version_in (view message.now) }
{
    inside(message, "textDocument", "version")?.as_i64()
}

/// Returns whether `version` is older than `known`; `false` if either is unknown.
pub(crate) fn is_older(version: Option<i64>, known: Option<i64>) -> bool
    ensures { result ≡ is_older version known }
{
    match (version, known) {
        (None, _) | (Some(_), None) => false,
        (Some(version), Some(known)) => version < known,
    }
}

/// Returns the text of the document that a message opens.
pub(crate) fn opened_text(message: &Value) -> Option<&str>
    ensures { option_map (λ text. text.now) result ≡ opened_text (view message.now) }
{
    inside(message, "textDocument", "text")?.as_str()
}

/// Returns the whole text that a change gives; `None` if the change names a range.
fn whole_text(change: &Value) -> Option<&str>
    ensures { option_map (λ text. text.now) result ≡ whole_text (view change.now) }
{
    if change.get("range").is_some() {
        return None;
    }
    change.get("text")?.as_str()
}

/// Returns the text after the changes in a message: the whole text given by the last change, or `before` if there is no
/// change.
#[tactic(auto, using(crate::proofs::Reading::text_after_is))]
pub(crate) fn changed_text<'a>(before: Option<&'a str>, message: &'a Value) -> Option<&'a str>
    ensures { option_map (λ text. text.now) result
        ≡ changed_text (option_map (λ text. text.now) before.entry) (view message.now) }
{
    let changes = parameter(message, "contentChanges")?.as_array()?;
    match changes.as_slice().last() {
        None => before,
        Some(change) => whole_text(change),
    }
}

/// Returns the member `name` of the position that a message names.
fn place_in(message: &Value, name: &str) -> Option<u64>
    ensures { result ≡ place_in name.now (view message.now) }
{
    inside(message, "position", name)?.as_u64()
}

/// Returns the position that a message names.
pub(crate) fn position_in(message: &Value) -> Option<Position>
    ensures { result ≡ position_in (view message.now) }
{
    let line = place_in(message, "line")?;
    let character = place_in(message, "character")?;
    Some(Position { line, character })
}
