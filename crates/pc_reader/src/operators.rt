//! Operators between operands, signs before them, and attributes after them, token by token. As in `expression.rt`, an
//! operand is dropped by name before a failure is passed on.
ghost use Rattle.std.specs.Prelude.{◌≡◌, List, [], ◌∷◌, ◌≤◌, MatchResult, MatchOption, IfOk, false};
ghost use Rattle.pc_source.specs.declared.fault.Fault.TheVariants as fault;
ghost use Rattle.pc_token.specs.Lexeme.{Lexeme};
ghost use Rattle.pc_grammar.specs.Machine.States.{Part, identified, dotted};
ghost use Rattle.pc_grammar.specs.Fronts.Expressions.{prefix_kind};
ghost use Rattle.pc_reader.specs.Internal.Operands.{KeepsPart, prefix_of, starts_of, applied_all};
ghost use Rattle.pc_reader.specs.Reading.{IsReady, IsAhead};
ghost use Rattle.pc_reader.specs.Internal.Links.{link_view};
ghost use Rattle.pc_reader.specs.Internal.Expressions.{NextIs, Over, HasLink, ReadsInfix, ReadsOn, ReadsSigns};
ghost use Rattle.pc_reader.specs.Internal.Expressions.{wrapped_level};

use crate::link::{Link, link_of};
use crate::none_tests::NoneTest;
use crate::operand::{Infix, Operand, Prefix, member, none_test, wrap};
use crate::reader::Reader;
use pc_source::Fault;
use pc_token::{Keyword, Operator, Token, TokenKind};
use pc_tree::ComparisonOperator;
use std::alloc::Global;
use std::convert::AsStr;

impl Prefix {
    /// Returns the kind of the sign's token.
    fn kind(self) -> TokenKind
        ensures { result ≡ prefix_kind (prefix_of self) }
    {
        match self {
            Prefix::Minus => TokenKind::Operator(Operator::Minus),
            Prefix::Not => TokenKind::Keyword(Keyword::Not),
        }
    }
}

/// Applies signs to an operand, the last one first. `signs` are the bytes where they begin.
pub(crate) fn wrap_all(
    alloc: Global,
    prefix: Prefix,
    signs: Vec<usize>,
    operand: Operand,
) -> Result<Operand, Fault>
    requires { operand.depth ≤ 65 }
    ensures { MatchResult result
        (λ o. (ts : List Lexeme) (p : Part) → starts_of ts ≡ signs.items → KeepsPart operand p
        → KeepsPart o (applied_all (prefix_of prefix) ts p)
        × (o.level ≡ wrapped_level (prefix_of prefix) ts operand.level)) (λ e. e ≡ fault.OutOfMemory) }
{
    let mut signs = signs;
    let mut operand = operand;
    while let Some(start) = signs.pop() {
        operand = wrap(alloc, prefix, start, operand)?;
    }
    Ok(operand)
}

impl<X: AsStr + Drop, I: Iterator<Item = Result<Token<X>, Fault>> + Drop> Reader<X, I> {
    /// Returns the operator that the token ahead begins, if it continues an operand of level `left` where a node of at
    /// least `level` is due.
    pub(crate) fn link(&self, left: u8, level: u8) -> Option<Link>
        ensures { MatchOption result (NextIs (Over level left) self.now.ahead)
            (λ l. HasLink level left (link_view l) self.now.ahead) }
    {
        let kind = self.kind()?;
        let link = link_of(kind)?;
        if link.level() < level || left < link.left() {
            return None;
        }
        Some(link)
    }

    /// Takes the tokens of an operator between two operands and returns it. Of `is`, which has no right operand, takes
    /// only that token and returns `None`.
    pub(crate) fn infix(&mut self, link: Link) -> Result<Option<Infix>, Fault>
        requires { IsReady I.can_next I.remaining self.old }
        ensures { ReadsInfix X.AsStr I.Iterator (link_view link) self.old self.new result }
    {
        self.skip()?;
        match link {
            Link::Infix(infix) => Ok(Some(infix)),
            Link::Not => {
                self.expect_place(TokenKind::Keyword(Keyword::In))?;
                Ok(Some(Infix::Comparison(ComparisonOperator::NotIn)))
            }
            Link::Is => Ok(None),
        }
    }

    /// Reads the `None` or `not None` after an operand and `is`.
    pub(crate) fn none_behind(&mut self, alloc: Global, operand: Operand) -> Result<Operand, Fault>
        requires ready { IsReady I.can_next I.remaining self.old }
        requires depth { operand.depth ≤ 65 }
        ensures { ReadsOn X.AsStr I.Iterator
            (λ t p s. identified p (t ∷ []) s) 3 self.old self.new operand result }
    {
        let NoneTest { negated, end } = match self.none() {
            Ok(test) => test,
            Err(fault) => {
                drop(operand);
                return Err(fault);
            }
        };
        none_test(alloc, operand, negated, end)
    }

    /// Takes all signs of one kind that are ahead and returns the bytes where they begin.
    pub(crate) fn signs(&mut self, alloc: Global, prefix: Prefix) -> Result<Vec<usize>, Fault>
        requires { IsReady I.can_next I.remaining self.old }
        ensures reads { ReadsSigns X.AsStr I.Iterator
            (prefix_of prefix) self.old self.new result }
        ensures over { IfOk result (λ _. IsAhead (prefix_kind (prefix_of prefix)) self.new.ahead ≡ false) }
    {
        let kind = prefix.kind();
        let mut signs = Vec::new(alloc);
        while self.sees(kind) {
            let sign = self.take_place()?;
            signs.push(sign.start)?;
        }
        Ok(signs)
    }
}

impl<X: AsStr + Drop, I: Iterator<Item = Result<Token<X>, Fault>> + Drop> Reader<X, I> {
    /// Reads the name of an attribute, after an operand and a dot.
    pub(crate) fn member(&mut self, alloc: Global, operand: Operand) -> Result<Operand, Fault>
        requires ready { IsReady I.can_next I.remaining self.old }
        requires depth { operand.depth ≤ 65 }
        ensures { ReadsOn X.AsStr I.Iterator
            (λ t p s. dotted p (t ∷ []) s) 7 self.old self.new operand result }
    {
        let name = match self.name(alloc) {
            Ok(name) => name,
            Err(fault) => {
                drop(operand);
                return Err(fault);
            }
        };
        let end = name.place.end;
        member(alloc, operand, name, end)
    }
}
