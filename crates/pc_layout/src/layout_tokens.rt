//! The tokens of lines, one at a time.
ghost use Rattle.std.specs.Prelude.{◌≡◌, ℕ, ◌+◌, ◌<◌, ◌≤◌, ◌*◌, ◌^◌, true, false, List, [], ◌∷◌, length, map, Ok, Err};
ghost use Rattle.std.specs.Iterator.{IsFinite, MakesProgress};
ghost use Rattle.pc_source.specs.Stream.{ComesAs, RefusesWithin};
ghost use Rattle.pc_token.specs.Lexeme.{logical_line_of};
ghost use Rattle.pc_token.specs.Within.{LinesWithin};
ghost use Rattle.pc_layout.specs.TokenIterator.Items.{OutrankedBy};
ghost use Rattle.pc_layout.specs.Answering.{LaysOut};
ghost use Rattle.pc_layout.specs.TokenIterator.Start.{IsAtStart};

use crate::pending_line::{LineStage, PendingLine};
use pc_source::{Fault, Refusal, Source};
use pc_token::{Line, TextToken};
use std::alloc::Global;

/// The layout of lines, one token at a time.
#[derive(Drop)]
pub struct LayoutTokens<'a, I: Drop> {
    lines: I,
    pending_line: PendingLine<'a>,
}

impl<'a, I: Iterator<Item = Result<Line<'a>, Fault>> + Drop> LayoutTokens<'a, I> {
    ghost use Rattle.pc_layout.specs.TokenIterator.PendingTokens.{asks};
    ghost use Rattle.pc_layout.specs.TokenIterator.Items.{most_tokens_left};
    ghost use Rattle.pc_layout.specs.TokenIterator.NextToken.{gives_next_token};

    /// Returns the fault that is reported for a refusal of the layout: the first fault among the later lines, otherwise
    /// the refusal.
    fn outrank(&mut self, refusal: Refusal) -> Fault
        requires can { I.can_next self.old.lines }
        requires ends { IsFinite (I.remaining self.old.lines) }
        ensures { OutrankedBy I.next_gives refusal self.old.lines result }
    {
        // A lexical fault takes precedence over one of the layout, wherever it is.
        while let Some(next) = self.lines.next() {
            if let Err(fault) = next {
                return fault;
            }
        }
        Fault::Refused(refusal)
    }

    /// Requests the next line and returns its first token, or the first of those after the last line, or the fault. A
    /// function of its own, to keep `next`, which mostly takes a token that is ready, small.
    #[inline(never)]
    fn ask(&mut self) -> Option<Result<TextToken<'a>, Fault>>
        requires due { self.old.pending_line.due ≡ LineStage.Lines }
        requires can { I.can_next self.old.lines }
        requires ends { IsFinite (I.remaining self.old.lines) }
        ensures steps { gives_next_token I.next_gives self.old.pending_line self.old.lines result
            self.new.pending_line self.new.lines }
        ensures goes { MakesProgress
            (λ s. asks s.pending_line.due ≡ true → I.can_next s.lines × IsFinite (I.remaining s.lines))
            (λ s. most_tokens_left s.pending_line (I.remaining s.lines)) self.old result self.new }
    {
        match self.lines.next() {
            None => {
                self.pending_line.finish();
                Some(Ok(self.pending_line.take()))
            }
            Some(Err(fault)) => {
                self.pending_line.due = LineStage::Nothing;
                Some(Err(fault))
            }
            Some(Ok(line)) => match self.pending_line.begin(line) {
                Ok(()) => Some(Ok(self.pending_line.take())),
                Err(refusal) => {
                    let fault = self.outrank(refusal);
                    self.pending_line.due = LineStage::Nothing;
                    Some(Err(fault))
                }
            },
        }
    }
}

impl<'a, I: Iterator<Item = Result<Line<'a>, Fault>> + Drop> Iterator for LayoutTokens<'a, I> {
    type Item = Result<TextToken<'a>, Fault>;

    ghost use Rattle.pc_layout.specs.TokenIterator.PendingTokens.{asks};
    ghost use Rattle.pc_layout.specs.TokenIterator.Items.{most_tokens_left};
    ghost use Rattle.pc_layout.specs.TokenIterator.NextToken.{gives_next_token};

    ghost next_gives = { λ s r t. gives_next_token I.next_gives s.pending_line s.lines r t.pending_line t.lines };

    ghost remaining = { λ s. most_tokens_left s.pending_line (I.remaining s.lines) };

    ghost can_next = { λ s. asks s.pending_line.due ≡ true → I.can_next s.lines × IsFinite (I.remaining s.lines) };

    fn size_hint(&self) -> (usize, Option<usize>) {
        (0, None)
    }

    fn next(&mut self) -> Option<Result<TextToken<'a>, Fault>> {
        match self.pending_line.due {
            LineStage::Nothing => None,
            LineStage::Line | LineStage::End => Some(Ok(self.pending_line.take())),
            LineStage::Lines => self.ask(),
        }
    }
}

/// Returns the layout of lines, one token at a time, over any finite iterator of the lines of a source. Python Language
/// Reference 3.12, 2.1.8 "Indentation".
///
/// # Errors
///
/// An item may be a fault among the lines; or `I1` to `I3` at the first token of a line, `N1` and `N2` at a token, `N3`
/// to `N5` at the first token of a line: the first of these, given once the other lines are read without a fault. After
/// an error, and after END, `next` always returns `None`.
pub fn layout_of<'a, I: Iterator<Item = Result<Line<'a>, Fault>> + Drop>(
    alloc: Global,
    source: &'a Source,
    lines: I,
) -> LayoutTokens<'a, I>
    ensures ready { I.can_next lines → IsFinite (I.remaining lines)
        → ⟦<LayoutTokens<'a, I> as Iterator>⟧.can_next result × IsFinite (⟦<LayoutTokens<'a, I> as Iterator>⟧.remaining result) }
    ensures begins { IsAtStart source.now lines result }
    ensures lays { LaysOut I.next_gives ⟦<LayoutTokens<'a, I> as Iterator>⟧.next_gives source.now lines result }
    ensures within { RefusesWithin I.next_gives (length source.now) lines
        → ComesAs I.next_gives (λ ls. LinesWithin (length source.now) (map logical_line_of ls)) lines
        → RefusesWithin ⟦<LayoutTokens<'a, I> as Iterator>⟧.next_gives (length source.now) result }
{
    LayoutTokens {
        lines,
        pending_line: PendingLine::new(alloc, source),
    }
}
