//! The parser's state: its tokens, and the first whole expression or annotation that is too deep.
ghost use Rattle.std.specs.Prelude.{◌≡◌, ◌∷◌, [], None};
ghost use Rattle.pc_reader.specs.Reading.{IsReady};
ghost use Rattle.pc_parse.specs.Internal.WholeTrees.{deep_after, ReadsWhole};

use pc_reader::{Operand, Reader};
use pc_source::Fault;
use pc_token::Token;
use std::alloc::Global;
use std::convert::AsStr;

/// A reader, and the byte where the first whole expression or annotation deeper than 64 begins, if one has been read.
/// Own rule of the profile.
#[derive(Drop)]
pub(crate) struct Parser<X: Drop, I: Drop> {
    pub reader: Reader<X, I>,
    pub deep: Option<usize>,
}

impl<X: AsStr + Drop, I: Iterator<Item = Result<Token<X>, Fault>> + Drop> Parser<X, I> {
    /// Creates a parser that has read nothing.
    pub(crate) fn new(reader: Reader<X, I>) -> Self
        ensures { result ≡ record { reader = reader; deep = None } }
    {
        Parser { reader, deep: None }
    }

    /// Notes a whole expression or annotation that begins at byte `first`, with its depth, 65 if deeper than 64.
    pub(crate) fn note(&mut self, first: usize, depth: u8)
        ensures reader { self.new.reader ≡ self.old.reader }
        ensures deep { self.new.deep ≡ deep_after self.old.deep (record { start = first; depth = depth } ∷ []) }
    {
        if depth > 64 && self.deep.is_none() {
            self.deep = Some(first);
        }
    }

    /// Reads a whole expression and notes its depth.
    pub(crate) fn expression(&mut self, alloc: Global) -> Result<Operand, Fault>
        requires { IsReady I.can_next I.remaining self.old.reader }
        ensures { ReadsWhole X.AsStr I.Iterator self.old self.new result }
    {
        let operand = self.reader.operators(alloc, 0)?;
        self.note(operand.first, operand.depth);
        Ok(operand)
    }
}
