//! The layout of a list of lines.
ghost use Rattle.std.specs.Prelude.{◌≡◌, ℕ, List, [], ◌∷◌, length, map, drop, MatchOption, MatchResult, IfOk, IfErr};
ghost use Rattle.std.specs.Iterator.{at_most};
ghost use Rattle.pc_source.specs.declared.fault.Fault.TheVariants as fault;
ghost use Rattle.pc_source.specs.Answers.{OnRefusal};
ghost use Rattle.pc_source.specs.Within.{IsWithin};
ghost use Rattle.pc_token.specs.Lexeme.{logical_line_of, lexeme_of};
ghost use Rattle.pc_token.specs.Within.{LinesWithin};
ghost use Rattle.pc_layout.specs.Layouts.{IsLayout};
ghost use Rattle.pc_layout.specs.Answering.{Refuses};

use crate::layout_tokens::layout_of;
use pc_source::{Fault, Source};
use pc_token::{Line, TextToken};
use std::alloc::Global;

/// The remaining lines of a list, copied one at a time.
#[derive(Drop)]
struct Listed<'t, 'a> {
    lines: &'t [Line<'a>],
    at: usize,
    alloc: Global,
}

/// Copies a line.
fn copied<'a>(alloc: Global, line: &Line<'a>) -> Result<Line<'a>, Fault>
    ensures { MatchResult result (λ l. logical_line_of l ≡ logical_line_of line.now) (λ e. e ≡ fault.OutOfMemory) }
{
    let mut tokens = Vec::new(alloc);
    for token in &line.tokens {
        tokens.push(token.clone()?)?;
    }
    Ok(Line {
        column: line.column,
        tokens,
    })
}

impl<'t, 'a> Iterator for Listed<'t, 'a> {
    type Item = Result<Line<'a>, Fault>;

    ghost use Rattle.std.specs.Prelude.{◌-◌, length};
    ghost use Rattle.pc_layout.specs.Internal.ListedLines.{gives_line};

    ghost next_gives = { gives_line };

    ghost remaining = { λ s. at_most (length s.lines.now - s.at) };

    fn size_hint(&self) -> (usize, Option<usize>) {
        (0, None)
    }

    fn next(&mut self) -> Option<Result<Line<'a>, Fault>> {
        if self.at >= self.lines.len() {
            return None;
        }
        let line = copied(self.alloc, &self.lines[self.at]);
        self.at += 1;
        Some(line)
    }
}

/// Returns the layout of listed lines; for tests, since a check takes its tokens from `layout_of` one by one. It has
/// the tokens of the lines, with a NEWLINE after each line, an INDENT before and a DEDENT after a deeper suite, and END
/// last. Python Language Reference 3.12, 2.1.8 "Indentation".
///
/// # Errors
///
/// `I1` to `I3` at the first token of a line, `N1` and `N2` at a token, `N3` to `N5` at the first token of a line: the
/// first of all, if the lines are those of the source. `OutOfMemory` if the tokens cannot be allocated.
pub fn layout<'a>(
    alloc: Global,
    source: &'a Source,
    lines: &[Line<'a>],
) -> Result<Vec<TextToken<'a>>, Fault>
    ensures laid { IfOk result (λ tokens. IsLayout source.now (map logical_line_of lines.now) (map lexeme_of tokens.items)) }
    ensures refused { IfErr result (OnRefusal (Refuses source.now (map logical_line_of lines.now))) }
    ensures within { LinesWithin (length source.now) (map logical_line_of lines.now)
        → IfErr result (IsWithin (length source.now)) }
{
    let mut tokens = Vec::new(alloc);
    let listed = Listed {
        lines,
        at: 0,
        alloc,
    };
    for token in layout_of(alloc, source, listed) {
        tokens.push(token?)?;
    }
    Ok(tokens)
}
