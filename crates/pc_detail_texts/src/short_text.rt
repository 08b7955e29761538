//! Texts of names and types as details tell them: of at most 200 bytes.

ghost use Rattle.std.specs.Prelude.{◌≡◌, ◌++◌, ℕ, [], IfOk, List};
ghost use Rattle.pc_detail_texts.specs.Shortened.{KeepsText, shortened};
ghost use Rattle.pc_detail_texts.specs.Shown.{words};

use pc_source::OutOfMemory;
use std::alloc::Global;
use std::fmt::InlineText;
use std::rc::RcStr;

/// The greatest length in bytes of a name or a type in a detail.
const LIMIT: usize = 200;

/// A text that grows, of which no more is kept than a detail tells.
#[derive(Drop)]
pub struct ShortText {
    kept: InlineText<200>,
    is_cut: bool,
}

impl ShortText {
    /// Returns an empty text.
    pub fn new() -> ShortText
        ensures { KeepsText result [] }
    {
        ShortText {
            kept: InlineText::new(),
            is_cut: false,
        }
    }

    /// Appends a text.
    pub fn push(&mut self, more: &str)
        ensures { (whole : List ℕ) → KeepsText self.old whole → KeepsText self.new (whole ++ more.now) }
    {
        if self.is_cut {
            return;
        }
        self.is_cut = LIMIT - self.kept.as_str().len() < more.len();
        self.kept = self.kept.and_str(more, LIMIT);
    }

    /// Returns the text, to be kept in a detail: the whole text, or one that ends in three dots if it has over 200
    /// bytes.
    ///
    /// # Errors
    ///
    /// `OutOfMemory` only if an allocation failed.
    pub fn to_words(&self, alloc: Global) -> Result<RcStr, OutOfMemory>
        ensures { (whole : List ℕ) → KeepsText self.now whole → IfOk result (λ t. words t ≡ shortened whole) }
    {
        Ok(RcStr::from_str(alloc, self.kept.as_str())?)
    }
}

/// Returns a text as a detail tells it: one of over 200 bytes is cut before a character, and ends in three dots.
///
/// # Errors
///
/// `OutOfMemory` only if an allocation failed.
pub fn shortened(alloc: Global, text: &str) -> Result<RcStr, OutOfMemory>
    ensures { IfOk result (λ t. words t ≡ shortened text.now) }
{
    let mut short = ShortText::new();
    short.push(text);
    short.to_words(alloc)
}
