//! The diagnostics of a document.

ghost use Rattle.std.specs.Prelude.{◌≡◌, IfOk, map, option_map, string_bytes};
ghost use Rattle.serde_json.specs.View.{view};
ghost use Rattle.pc_documents.specs.Agreed.{agreed_of};
ghost use Rattle.pc_documents.specs.Checked.{IsChecked, IsCheckedAs, is_sent};
ghost use Rattle.pc_documents.specs.Documents.{opened_of};

use crate::checker::Checker;
use crate::diagnostics::{found_values, unknown_values};
use crate::documents::Document;
use crate::settings::Settings;
use pc_source::OutOfMemory;
use serde_json::Value;
use std::alloc::Global;

/// Returns whether a document's diagnostics are published: it is Python, and the client does not pull them.
pub fn is_sent(settings: &Settings, document: &Document) -> bool
    ensures { result ≡ is_sent (agreed_of settings.now) (opened_of document.now) }
{
    document.python && !settings.pulls
}

/// Returns the diagnostics of the text of the document with this URI, or a single one saying that the text is not known.
pub fn checked_text<C: Checker>(
    checker: &C,
    alloc: Global,
    settings: &Settings,
    text: &Option<String>,
    uri: &str,
) -> Result<Vec<Value>, OutOfMemory>
    ensures { IfOk result (λ v. IsChecked (C.answers checker.now) (agreed_of settings.now)
        (option_map string_bytes text.now) uri.now (map view v.items)) }
{
    match text {
        None => Ok(unknown_values(alloc)?),
        Some(text) => {
            let text = text.as_str();
            let found = checker.find(alloc, text)?;
            let values = found_values(alloc, settings, text.as_bytes(), uri, &found)?;
            Ok(values)
        }
    }
}

/// Returns the diagnostics of a document; none if it is not Python.
pub fn checked_as<C: Checker>(
    checker: &C,
    alloc: Global,
    settings: &Settings,
    document: &Document,
) -> Result<Vec<Value>, OutOfMemory>
    ensures { IfOk result (λ v. IsCheckedAs (C.answers checker.now) (agreed_of settings.now) document.now.python
        (option_map string_bytes document.now.text) (string_bytes document.now.uri) (map view v.items)) }
{
    if document.python {
        let uri = document.uri.as_str();
        let values = checked_text(checker, alloc, settings, &document.text, uri)?;
        Ok(values)
    } else {
        Ok(Vec::new(alloc))
    }
}
