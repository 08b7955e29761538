//! The open documents of an editor: their diagnostics and hover texts, over any checker of texts. No device is used here.
#![tactic(auto)]

mod anchors;
mod checker;
mod declarations;
mod definitions;
mod diagnostics;
mod documents;
mod hover;
mod ranges;
mod related;
mod settings;
mod symbols;
mod texts;
mod told;

pub use checker::{CheckOutcome, Checker, FlowTypes, ReportedFinding, ToldDetail};
pub use definitions::definitions_of;
pub use diagnostics::unknown_values;
pub use documents::{Document, document_of, forget, index_of_document, put, remove};
pub use settings::{Settings, WARNING};
pub use symbols::symbols_of;
pub use texts::{checked_as, checked_text, is_sent};
pub use told::said_as;
