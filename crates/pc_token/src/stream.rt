//! An iterator over the logical lines of a source.
ghost use Rattle.std.specs.Prelude.{◌≡◌, []};
ghost use Rattle.std.specs.Str.{IsCharBoundary};

use crate::line_lexer::LineLexer;
use crate::token::{Line, Operator};
use pc_source::Fault;
use std::alloc::Global;
use std::mem;

/// The remaining logical lines of a source. After an `Err`, and at the end, it gives `None`.
#[derive(Drop)]
pub struct Lines<'a> {
    pub(crate) alloc: Global,
    pub(crate) text: &'a str,
    pub(crate) at: usize,
    pub(crate) done: bool,
    /// Storage for the open brackets of a line, reused from line to line. Between lines none is open.
    pub(crate) brackets: Vec<Operator>,
    ghost on_boundary: { IsCharBoundary text.now at },
    ghost none_open: { brackets.items ≡ [] },
}

impl<'a> Iterator for Lines<'a> {
    ghost use Rattle.pc_token.specs.Remaining.{gives, items_left};

    type Item = Result<Line<'a>, Fault>;

    ghost next_gives = { gives };

    ghost remaining = { items_left };

    fn next(&mut self) -> Option<Result<Line<'a>, Fault>> {
        if self.done {
            return None;
        }
        let brackets = mem::replace(&mut self.brackets, Vec::new(self.alloc));
        let mut reading = LineLexer::new(self.alloc, self.text, self.at, brackets);
        match reading.read() {
            Ok(more) => {
                self.done = !more;
                self.at = reading.at;
                mem::swap(&mut self.brackets, &mut reading.brackets);
            }
            Err(fault) => {
                self.done = true;
                return Some(Err(fault));
            }
        }
        let line = reading.into_line()?;
        Some(Ok(line))
    }
}
