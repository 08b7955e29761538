//! The moments at which the layout requests lines.
use pc_layout::layout_of;
use pc_source::{Fault, read_source};
use pc_token::{Line, TokenKind, tokens};
use std::alloc::Global;
use std::cell::Cell;
use std::vec::IntoIter;

/// Lines, with a count of the calls that requested one.
#[derive(Drop)]
struct Counting<'c, 'a> {
    lines: IntoIter<Line<'a>>,
    asked: &'c Cell<usize>,
}

impl<'c, 'a> Iterator for Counting<'c, 'a> {
    type Item = Result<Line<'a>, Fault>;

    ghost use Rattle.std.specs.Iterator.{at_most};
    ghost use Rattle.std.specs.Vec.Iter.{into_iter_len};

    ghost remaining = { λ s. at_most (into_iter_len s.lines) };

    fn size_hint(&self) -> (usize, Option<usize>) {
        (0, None)
    }

    fn next(&mut self) -> Option<Result<Line<'a>, Fault>> {
        self.asked.set(self.asked.get().saturating_add(1));
        match self.lines.next() {
            None => None,
            Some(line) => Some(Ok(line)),
        }
    }
}

/// Returns the number of lines that end in the layout of a text, the number of requests for a line, and whether no line
/// is requested before the line before it has ended.
pub fn asking_text(alloc: Global, text: &str) -> Result<String, Fault> {
    let source = read_source(alloc, text.as_bytes())?;
    let asked = Cell::new(0usize);
    let lines = Counting {
        lines: tokens(alloc, &source)?.into_iter(),
        asked: &asked,
    };
    let (mut ended, mut late) = (0usize, true);
    for token in layout_of(alloc, &source, lines) {
        if token?.kind == TokenKind::Newline {
            ended = ended.saturating_add(1);
            late = late && asked.get() <= ended.saturating_add(1);
        }
    }
    Ok(format!(in alloc; "{ended} {} {late}", asked.get())?)
}
