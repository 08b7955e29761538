//! The publication of a document's diagnostics.

ghost use Rattle.std.specs.Prelude.{IfOk, map};
ghost use Rattle.serde_json.specs.View.{view};
ghost use Rattle.pc_documents.specs.Agreed.{agreed_of};
ghost use Rattle.pc_documents.specs.Documents.{opened_of};
ghost use Rattle.pc_session.specs.Publications.{IsPublished};

use crate::replies::publish;
use pc_documents::{Checker, Document, Settings, checked_text, is_sent};
use pc_source::OutOfMemory;
use serde_json::Value;
use std::alloc::Global;

/// Returns the replies to a new text of a document: one publication, or none if its diagnostics are not published.
pub(crate) fn published<C: Checker>(
    checker: &C,
    alloc: Global,
    settings: &Settings,
    document: &Document,
) -> Result<Vec<Value>, OutOfMemory>
    ensures { IfOk result (λ v. IsPublished (C.answers checker.now) (agreed_of settings.now) (opened_of document.now)
        (map view v.items)) }
{
    if !is_sent(settings, document) {
        return Ok(Vec::new(alloc));
    }
    let uri = document.uri.as_str();
    let diagnostics = checked_text(checker, alloc, settings, &document.text, uri)?;
    let mut replies = Vec::with_capacity(alloc, 1)?;
    replies.push(publish(alloc, uri, document.version, diagnostics)?)?;
    Ok(replies)
}
