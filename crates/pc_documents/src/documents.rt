//! The open documents.

ghost use Rattle.std.specs.Prelude.{◌≡◌, OnOk, OnErr, map, option_map, position, bytes_eq, string_bytes, remove};
ghost use Rattle.pc_documents.specs.Documents.{index_of_document, document_at, with_document, forgotten, opened_of};

use std::alloc::AllocFailed;

/// An open document.
#[derive(Debug, Drop)]
pub struct Document {
    pub uri: String,
    pub version: Option<i64>,
    /// Whether its language is Python. Other documents are not checked.
    pub python: bool,
    /// `None` after a message that was lost or unreadable, or after a change that gave no whole text.
    pub text: Option<String>,
}

/// Returns the index of the first document with this URI.
fn first_of(documents: &[Document], uri: &str) -> Option<usize>
    ensures { result ≡ position (λ d. bytes_eq (string_bytes d.uri) uri.now) documents.now }
{
    documents
        .iter()
        .position(|document| document.uri.as_str() == uri)
}

/// Returns the index of the document with this URI, if it is open.
#[tactic(auto, using(crate::proofs::Keeping::place_of_map))]
pub fn index_of_document(documents: &[Document], uri: &str) -> Option<usize>
    ensures { result ≡ index_of_document uri.now (map opened_of documents.now) }
{
    first_of(documents, uri)
}

/// Returns the document with this URI, if it is open.
#[tactic(auto, using(crate::proofs::Keeping::found_some, crate::proofs::Keeping::found_none))]
pub fn document_of<'a>(documents: &'a [Document], uri: &str) -> Option<&'a Document>
    ensures { option_map (λ d. opened_of d.now) result ≡ document_at uri.now (map opened_of documents.now) }
{
    let place = index_of_document(documents, uri)?;
    let document = documents.get(place)?;
    Some(document)
}

/// Replaces the document that has the same URI, or appends the document if there is none.
#[tactic(auto, using(crate::proofs::Rulesets::puts))]
pub fn put(documents: &mut Vec<Document>, document: Document) -> Result<(), AllocFailed<Document>>
    ensures put { OnOk result
        (map opened_of documents.new.items ≡ with_document (opened_of document) (map opened_of documents.old.items)) }
    ensures unchanged { OnErr result (documents.new.items ≡ documents.old.items) }
{
    match index_of_document(documents, document.uri.as_str()) {
        None => documents.push(document),
        Some(place) => {
            documents[place] = document;
            Ok(())
        }
    }
}

/// Removes the document at an index. Does nothing past the end.
#[tactic(auto, using(crate::proofs::Keeping::removed, crate::proofs::Keeping::removed_past))]
pub fn remove(documents: &mut Vec<Document>, place: usize)
    ensures { map opened_of documents.new.items ≡ remove (map opened_of documents.old.items) place }
{
    if place < documents.len() {
        let _ = documents.remove(place);
    }
}

/// Forgets the texts of all documents.
#[tactic(auto, using(crate::proofs::Keeping::silent_more, crate::proofs::Keeping::silent_all))]
pub fn forget(documents: &mut Vec<Document>)
    ensures { map opened_of documents.new.items ≡ map forgotten (map opened_of documents.old.items) }
{
    for document in documents.iter_mut() {
        document.text = None;
    }
}
