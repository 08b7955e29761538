//! Expressions, by descent: operators by precedence, and recursion that gets deeper only at brackets. Each function
//! takes the tokens that it reads, and fails as `Reader::misfit` does at the first that does not fit, or if an
//! allocation fails. An operand is dropped by name before a failure is passed on: proofs take long where one goes out of
//! scope. The forms in brackets are in `brackets.rt`.
ghost use Rattle.std.specs.Prelude.{◌≡◌, ◌≤◌, MatchResult, IfOk, true};
ghost use Rattle.pc_source.specs.declared.fault.Fault.TheVariants as fault;
ghost use Rattle.pc_grammar.specs.Machine.Kinds.{operand_start};
ghost use Rattle.pc_grammar.specs.Machine.Expressions.{needed_level};
ghost use Rattle.pc_reader.specs.Reading.{IsReady, lexeme};
ghost use Rattle.pc_reader.specs.Internal.Expressions.{NextIs, Over, Undotted, IsPrimary, IsSingle, IsValue};
ghost use Rattle.pc_reader.specs.Internal.Expressions.{is_value_start, ReadsOperand};

use crate::items::{Items, Listed, list};
use crate::name::{characters, digits, name_of_word};
use crate::operand::{Operand, Prefix, join_operands, node, wrap};
use crate::operators::wrap_all;
use crate::reader::Reader;
use pc_source::Fault;
use pc_token::{Keyword, Operator, Token, TokenKind};
use pc_tree::Expr;
use std::alloc::Global;
use std::convert::AsStr;

impl<X: AsStr + Drop, I: Iterator<Item = Result<Token<X>, Fault>> + Drop> Reader<X, I> {
    /// Reads a name, a number, a string, or a keyword that is a value.
    fn single(&mut self, alloc: Global) -> Result<Operand, Fault>
        requires { IsReady I.can_next I.remaining self.old }
        ensures reads { ReadsOperand X.AsStr I.Iterator
            (λ s. IsSingle self.old s) 7 self.old self.new result }
        ensures level { IfOk result (λ o. o.level ≡ 7) }
    {
        let Some(token) = &self.ahead else {
            return Err(self.misfit());
        };
        if !is_value(token.kind) {
            return Err(self.misfit());
        }
        let operand = value(alloc, token)?;
        match self.skip() {
            Ok(()) => {}
            Err(fault) => {
                drop(operand);
                return Err(fault);
            }
        }
        Ok(operand)
    }
}

/// Whether a token of this kind is a value by itself.
fn is_value(kind: TokenKind) -> bool
    ensures { result ≡ is_value_start (operand_start kind) }
{
    match kind {
        TokenKind::Name | TokenKind::Int | TokenKind::Str => true,
        TokenKind::Keyword(Keyword::True | Keyword::False | Keyword::None) => true,
        _ => false,
    }
}

/// Returns the value that a token is.
fn value<X: AsStr + Drop>(alloc: Global, token: &Token<X>) -> Result<Operand, Fault>
    ensures { MatchResult result
        (λ o. (o.level ≡ 7) × (is_value_start (operand_start token.now.kind) ≡ true → IsValue (lexeme X.text token.now) o))
        (λ e. e ≡ fault.OutOfMemory) }
{
    let place = token.place;
    match token.kind {
        TokenKind::Int => {
            let text = digits(alloc, token.text.as_str())?;
            Ok(node(Expr::Int(place, text), place, 7, 0))
        }
        TokenKind::Str => {
            let text = characters(alloc, token.text.as_str())?;
            Ok(node(Expr::Str(place, text), place, 7, 0))
        }
        TokenKind::Keyword(Keyword::True) => Ok(node(Expr::True(place), place, 7, 0)),
        TokenKind::Keyword(Keyword::False) => Ok(node(Expr::False(place), place, 7, 0)),
        TokenKind::Keyword(Keyword::None) => Ok(node(Expr::NoneValue(place), place, 7, 0)),
        _ => {
            let name = name_of_word(alloc, token)?;
            Ok(node(Expr::Name(name), place, 7, 0))
        }
    }
}

impl<X: AsStr + Drop, I: Iterator<Item = Result<Token<X>, Fault>> + Drop> Reader<X, I> {
    /// Reads operands and the operators between them, down to operators of this level. A level is from 0, `or`, to 7, a
    /// name or a form with brackets.
    #[cycle(expressions)]
    pub fn operators(&mut self, alloc: Global, level: u8) -> Result<Operand, Fault>
        requires ready { IsReady I.can_next I.remaining self.old }
        requires level { level ≤ 6 }
        ensures reads { ReadsOperand X.AsStr I.Iterator
            (λ s. needed_level s ≡ level) level self.old self.new result }
        ensures over { IfOk result (λ o. NextIs (Over level o.level) self.new.ahead) }
        ensures undotted { IfOk result (λ o. NextIs (Undotted o.level) self.new.ahead) }
    {
        let mut left = self.prefixed(alloc, level)?;
        while let Some(link) = self.link(left.level, level) {
            let infix = match self.infix(link) {
                Ok(infix) => infix,
                Err(fault) => {
                    drop(left);
                    return Err(fault);
                }
            };
            if let Some(infix) = infix {
                let right = match self.operators(alloc, infix.right()) {
                    Ok(right) => right,
                    Err(fault) => {
                        drop(left);
                        return Err(fault);
                    }
                };
                left = join_operands(alloc, infix, left, right)?;
            } else {
                left = self.none_behind(alloc, left)?;
            }
        }
        Ok(left)
    }

    /// Reads an operand with the signs before it. Most operands have none.
    #[cycle(expressions)]
    fn prefixed(&mut self, alloc: Global, level: u8) -> Result<Operand, Fault>
        requires ready { IsReady I.can_next I.remaining self.old }
        requires level { level ≤ 6 }
        ensures reads { ReadsOperand X.AsStr I.Iterator
            (λ s. needed_level s ≡ level) level self.old self.new result }
        ensures undotted { IfOk result (λ o. NextIs (Undotted o.level) self.new.ahead) }
    {
        if self.sees(TokenKind::Operator(Operator::Minus)) {
            return self.signed(alloc, level);
        }
        if level <= 2 && self.sees(TokenKind::Keyword(Keyword::Not)) {
            return self.signed(alloc, level);
        }
        self.postfix(alloc)
    }

    /// Reads the signs before an operand, and the operand.
    #[cycle(expressions)]
    #[inline(never)]
    fn signed(&mut self, alloc: Global, level: u8) -> Result<Operand, Fault>
        requires ready { IsReady I.can_next I.remaining self.old }
        requires level { level ≤ 6 }
        ensures reads { ReadsOperand X.AsStr I.Iterator
            (λ s. needed_level s ≡ level) level self.old self.new result }
        ensures undotted { IfOk result (λ o. NextIs (Undotted o.level) self.new.ahead) }
    {
        if level <= 2 && self.sees(TokenKind::Keyword(Keyword::Not)) {
            let first = self.take_place()?;
            let signs = self.signs(alloc, Prefix::Not)?;
            let operand = self.operators(alloc, 2)?;
            let inner = wrap_all(alloc, Prefix::Not, signs, operand)?;
            return wrap(alloc, Prefix::Not, first.start, inner);
        }
        let signs = self.signs(alloc, Prefix::Minus)?;
        let operand = self.postfix(alloc)?;
        wrap_all(alloc, Prefix::Minus, signs, operand)
    }

    /// Reads an operand, and the attributes, indices and calls that continue it.
    #[cycle(expressions)]
    fn postfix(&mut self, alloc: Global) -> Result<Operand, Fault>
        requires { IsReady I.can_next I.remaining self.old }
        ensures reads { ReadsOperand X.AsStr I.Iterator
            (λ s. IsPrimary self.old s) 7 self.old self.new result }
        ensures level { IfOk result (λ o. o.level ≡ 7) }
        ensures undotted { IfOk result (λ o. NextIs (Undotted 7) self.new.ahead) }
    {
        let mut operand = self.atom(alloc)?;
        loop {
            if self.sees(TokenKind::Operator(Operator::Dot)) {
                match self.skip() {
                    Ok(()) => {}
                    Err(fault) => {
                        drop(operand);
                        return Err(fault);
                    }
                }
                operand = self.member(alloc, operand)?;
            } else if self.sees(TokenKind::Operator(Operator::LeftBracket)) {
                match self.skip() {
                    Ok(()) => {}
                    Err(fault) => {
                        drop(operand);
                        return Err(fault);
                    }
                }
                operand = self.index(alloc, operand)?;
            } else if self.sees(TokenKind::Operator(Operator::LeftParenthesis)) {
                match self.skip() {
                    Ok(()) => {}
                    Err(fault) => {
                        drop(operand);
                        return Err(fault);
                    }
                }
                operand = self.call(alloc, operand)?;
            } else {
                return Ok(operand);
            }
        }
    }

    /// Reads a form with brackets, or a single token.
    #[cycle(expressions)]
    fn atom(&mut self, alloc: Global) -> Result<Operand, Fault>
        requires { IsReady I.can_next I.remaining self.old }
        ensures reads { ReadsOperand X.AsStr I.Iterator
            (λ s. IsPrimary self.old s) 7 self.old self.new result }
        ensures level { IfOk result (λ o. o.level ≡ 7) }
    {
        if self.sees(TokenKind::Operator(Operator::LeftParenthesis)) {
            return self.group(alloc);
        }
        if self.sees(TokenKind::Operator(Operator::LeftBracket)) {
            let open = self.take_place()?;
            let Listed { items, end } = self.items(
                alloc,
                Items::new(alloc),
                Operator::RightBracket,
            )?;
            return Ok(list(alloc, items, open.start, end));
        }
        if self.sees(TokenKind::Operator(Operator::LeftBrace)) {
            return self.dict(alloc);
        }
        self.single(alloc)
    }
}
