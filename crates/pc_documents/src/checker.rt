//! The checker of a session, and its findings.

ghost use Rattle.std.specs.Prelude.{IfOk, option_map, string_bytes};
ghost use Rattle.pc_documents.specs.CheckerAnswers.{outcome, type_shown};

use pc_source::{OutOfMemory, Place, Refusal};
use pc_tree::Finding;
use std::alloc::Global;

/// Texts of the two types of a flow: the type of the value, and the type it flows into.
#[derive(Debug, Drop, PartialEq, Eq)]
pub struct FlowTypes {
    pub from: String,
    pub to: String,
}

/// The sentence of a finding's detail, and the other places that the detail names.
#[derive(Debug, Drop, PartialEq, Eq)]
pub struct ToldDetail {
    pub sentence: String,
    pub others: Vec<Place>,
}

/// A finding, with the two types of its flow and its detail, if it has them.
#[derive(Debug, Drop, PartialEq, Eq)]
pub struct ReportedFinding {
    pub finding: Finding,
    pub flow: Option<FlowTypes>,
    pub detail: Option<ToldDetail>,
}

/// Result of checking a text: the findings of a module, in order, or the refusal of a text that is not a module.
#[derive(Debug, Drop)]
pub enum CheckOutcome {
    Items(Vec<ReportedFinding>),
    Refused(Refusal),
}

/// A checker of texts. Its ghost member `answers` says which answers a text has; the contracts of a session cite it.
pub trait Checker {
    ghost use Rattle.std.specs.Prelude.{ℕ, List};
    ghost use Rattle.pc_documents.specs.CheckerAnswers.{CheckerAnswer};

    /// Relates a text to the answers that the checker may give about it.
    ghost answers: { Self → List ℕ → CheckerAnswer → Type 0 };

    /// Checks a text.
    ///
    /// # Errors
    ///
    /// `OutOfMemory` only when an allocation failed.
    fn find(&self, alloc: Global, text: &str) -> Result<CheckOutcome, OutOfMemory>
        ensures { IfOk result (λ found. answers self.now text.now (outcome found)) };

    /// Returns the text of the type of the smallest expression or bound name around a byte of a text, or `None` if there
    /// is none.
    ///
    /// # Errors
    ///
    /// `OutOfMemory` only when an allocation failed.
    fn type_at(&self, alloc: Global, text: &str, byte: usize) -> Result<Option<String>, OutOfMemory>
        ensures { IfOk result
            (λ shown. answers self.now text.now (type_shown byte (option_map string_bytes shown))) };
}
