//! The settings that an `initialize` request agrees on.

ghost use Rattle.std.specs.Prelude.{◌≡◌, IfOk, option_map, string_bytes};
ghost use Rattle.serde_json.specs.View.{view, items_view};
ghost use Rattle.pc_documents.specs.Agreed.{agreed_of};
ghost use Rattle.pc_session.specs.Messages.{is_text, has_text, offers, option_in, agreed_in, is_python, pulls_in};
ghost use Rattle.pc_session.specs.Messages.{accepts_related};

use crate::messages::{inside, parameter};
use pc_documents::{Settings, WARNING};
use pc_position::Encoding;
use serde_json::Value;
use std::alloc::{AllocError, Global};

/// The severity of an information.
const INFORMATION: u64 = 3;

/// Returns whether `value` is the string `text`.
fn is_text(value: &Value, text: &str) -> bool
    ensures { result ≡ is_text text.now (view value.now) }
{
    match value.as_str() {
        None => false,
        Some(found) => found == text,
    }
}

/// Returns whether one of the items is the string `text`.
#[tactic(auto, using(crate::proofs::Reading::has_text_drop, crate::proofs::Reading::has_text_end))]
fn has_text(items: &[Value], text: &str) -> bool
    ensures { result ≡ has_text text.now (items_view items.now) }
{
    for item in items {
        if is_text(item, text) {
            return true;
        }
    }
    false
}

/// Returns whether the client offers the position encoding `name`.
fn offers(message: &Value, name: &str) -> bool
    ensures { result ≡ offers name.now (view message.now) }
{
    let Some(capabilities) = parameter(message, "capabilities") else {
        return false;
    };
    let Some(general) = capabilities.get("general") else {
        return false;
    };
    let Some(offered) = general.get("positionEncodings") else {
        return false;
    };
    match offered.as_array() {
        None => false,
        Some(names) => has_text(names, name),
    }
}

/// Returns the client's initialization option `name`, if it is given.
fn option_in<'a>(message: &'a Value, name: &str) -> Option<&'a Value>
    ensures { option_map (λ v. view v.now) result ≡ option_in name.now (view message.now) }
{
    inside(message, "initializationOptions", name)
}

/// Returns the encoding to agree on: UTF-8 if the client offers it, otherwise UTF-16.
fn encoding_in(message: &Value) -> Encoding
    ensures { result ≡ (agreed_in (view message.now)).encoding }
{
    if offers(message, "utf-8") {
        Encoding::Utf8
    } else {
        Encoding::Utf16
    }
}

/// Returns the severity of dynamic places: information if the client asks for it, otherwise warning.
fn severity_in(message: &Value) -> u64
    ensures { result ≡ (agreed_in (view message.now)).dynamic_severity }
{
    match option_in(message, "dynamicPlaces") {
        Some(places) if is_text(places, "information") => INFORMATION,
        _ => WARNING,
    }
}

/// Returns the URL of the page that explains the codes, if the client names one.
fn page_in(message: &Value) -> Option<&str>
    ensures { option_map (λ text. text.now) result ≡ (agreed_in (view message.now)).codes_page }
{
    option_in(message, "codesPage")?.as_str()
}

/// Returns whether the document opened by a message is Python: its `languageId` is `python` or missing.
pub(crate) fn is_python(message: &Value) -> bool
    ensures { result ≡ is_python (view message.now) }
{
    match inside(message, "textDocument", "languageId") {
        None => true,
        Some(language) => is_text(language, "python"),
    }
}

/// Returns whether the client can pull diagnostics.
fn pulls_in(message: &Value) -> bool
    ensures { result ≡ pulls_in (view message.now) }
{
    let Some(documents) = inside(message, "capabilities", "textDocument") else {
        return false;
    };
    match documents.get("diagnostic") {
        None => false,
        Some(pulled) => pulled.is_object(),
    }
}

/// Returns whether the client accepts related information in diagnostics.
fn accepts_related(message: &Value) -> bool
    ensures { result ≡ accepts_related (view message.now) }
{
    let Some(documents) = inside(message, "capabilities", "textDocument") else {
        return false;
    };
    let Some(published) = documents.get("publishDiagnostics") else {
        return false;
    };
    match published.get("relatedInformation") {
        None => false,
        Some(accepted) => accepted.as_bool().unwrap_or(false),
    }
}

/// Returns the settings that an `initialize` request agrees on.
pub(crate) fn settings_in(alloc: Global, message: &Value) -> Result<Settings, AllocError>
    ensures { IfOk result (λ settings. agreed_of settings ≡ agreed_in (view message.now)) }
{
    let codes_page = copied_text(alloc, page_in(message))?;
    Ok(Settings {
        encoding: encoding_in(message),
        dynamic_severity: severity_in(message),
        codes_page,
        pulls: pulls_in(message),
        related: accepts_related(message),
    })
}

/// Copies a text, if there is one.
pub(crate) fn copied_text(alloc: Global, text: Option<&str>) -> Result<Option<String>, AllocError>
    ensures { IfOk result (λ o. option_map string_bytes o ≡ option_map (λ t. t.now) text.entry) }
{
    match text {
        None => Ok(None),
        Some(text) => Ok(Some(String::from_str(alloc, text)?)),
    }
}
