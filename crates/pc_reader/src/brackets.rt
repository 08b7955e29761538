//! Forms in brackets: groups and tuples, items of displays, dict displays, keys of indices, and arguments of calls. As
//! in `expression.rt`, an operand is dropped by name before a failure is passed on.
ghost use Rattle.std.specs.Prelude.{◌≡◌, ◌≤◌, ◌++◌, ◌∷◌, [], IfOk, true};
ghost use Rattle.pc_token.specs.declared.token.TokenKind.TheVariants as kind;
ghost use Rattle.pc_token.specs.declared.token.Operator.TheVariants as sign;
ghost use Rattle.pc_tree.specs.Tree.{no_exprs};
ghost use Rattle.pc_grammar.specs.Machine.States.{item_due, in_call, indexing, operand as operand_due};
ghost use Rattle.pc_reader.specs.Reading.{IsReady, IsAhead};
ghost use Rattle.pc_reader.specs.Internal.Expressions.{ReadsOperand, ReadsItems, ReadsArguments, ReadsKeywords, ReadsOn};

use crate::items::{
    Arguments, CallArguments, Entries, Items, Keywords, Listed, called, dict, tuple,
};
use crate::operand::{Operand, grouped, indexed, plain_name};
use crate::reader::Reader;
use pc_source::Fault;
use pc_token::{Operator, Token, TokenKind};
use pc_tree::Name;
use std::alloc::Global;
use std::convert::AsStr;

impl<X: AsStr + Drop, I: Iterator<Item = Result<Token<X>, Fault>> + Drop> Reader<X, I> {
    /// Reads an expression in parentheses, or a tuple.
    #[cycle(expressions)]
    pub(crate) fn group(&mut self, alloc: Global) -> Result<Operand, Fault>
        requires { IsReady I.can_next I.remaining self.old }
        ensures reads { ReadsOperand X.AsStr I.Iterator
            (λ s. IsAhead (kind.Operator sign.LeftParenthesis) self.old.ahead ≡ true) 7 self.old self.new result }
        ensures level { IfOk result (λ o. o.level ≡ 7) }
    {
        let open = self.take_place()?;
        if self.sees(TokenKind::Operator(Operator::RightParenthesis)) {
            let close = self.take_place()?;
            return Ok(tuple(alloc, Items::new(alloc), open.start, close.end));
        }
        let first = self.operators(alloc, 0)?;
        if self.sees(TokenKind::Operator(Operator::RightParenthesis)) {
            let close = match self.take_place() {
                Ok(close) => close,
                Err(fault) => {
                    drop(first);
                    return Err(fault);
                }
            };
            return Ok(grouped(first, open.start, close.end));
        }
        match self.expect_place(TokenKind::Operator(Operator::Comma)) {
            Ok(_) => {}
            Err(fault) => {
                drop(first);
                return Err(fault);
            }
        }
        let mut some = Items::new(alloc);
        some.push(first)?;
        let Listed { items, end } = self.items(alloc, some, Operator::RightParenthesis)?;
        Ok(tuple(alloc, items, open.start, end))
    }

    /// Reads more items, after `some`, up to and including the closing bracket.
    #[cycle(expressions)]
    pub(crate) fn items(
        &mut self,
        alloc: Global,
        some: Items,
        close: Operator,
    ) -> Result<Listed, Fault>
        requires { IsReady I.can_next I.remaining self.old }
        ensures { ReadsItems X.AsStr I.Iterator close self.old self.new some result }
    {
        let mut items = some;
        loop {
            if self.sees(TokenKind::Operator(close)) {
                let last = self.take_place()?;
                return Ok(Listed {
                    items,
                    end: last.end,
                });
            }
            let item = self.operators(alloc, 0)?;
            items.push(item)?;
            if !self.sees(TokenKind::Operator(Operator::Comma)) {
                let last = self.expect_place(TokenKind::Operator(close))?;
                return Ok(Listed {
                    items,
                    end: last.end,
                });
            }
            self.skip()?;
        }
    }

    /// Reads a dict display.
    #[cycle(expressions)]
    pub(crate) fn dict(&mut self, alloc: Global) -> Result<Operand, Fault>
        requires { IsReady I.can_next I.remaining self.old }
        ensures reads { ReadsOperand X.AsStr I.Iterator
            (λ s. IsAhead (kind.Operator sign.LeftBrace) self.old.ahead ≡ true) 7 self.old self.new result }
        ensures level { IfOk result (λ o. o.level ≡ 7) }
    {
        let open = self.take_place()?;
        let mut entries = Entries::new(alloc);
        loop {
            if self.sees(TokenKind::Operator(Operator::RightBrace)) {
                let close = self.take_place()?;
                return Ok(dict(alloc, entries, open.start, close.end));
            }
            let key = self.operators(alloc, 0)?;
            match self.expect_place(TokenKind::Operator(Operator::Colon)) {
                Ok(_) => {}
                Err(fault) => {
                    drop(key);
                    return Err(fault);
                }
            }
            let value = match self.operators(alloc, 0) {
                Ok(value) => value,
                Err(fault) => {
                    drop(key);
                    return Err(fault);
                }
            };
            entries.push(key, value)?;
            if !self.sees(TokenKind::Operator(Operator::Comma)) {
                let close = self.expect_place(TokenKind::Operator(Operator::RightBrace))?;
                return Ok(dict(alloc, entries, open.start, close.end));
            }
            self.skip()?;
        }
    }

    /// Reads the key of an operand, from after its `[` to its `]`.
    #[cycle(expressions)]
    pub(crate) fn index(&mut self, alloc: Global, operand: Operand) -> Result<Operand, Fault>
        requires ready { IsReady I.can_next I.remaining self.old }
        requires depth { operand.depth ≤ 65 }
        ensures { ReadsOn X.AsStr I.Iterator
            (λ t p s. operand_due (indexing p.tree (p.tokens ++ (t ∷ [])) s)) 7 self.old self.new operand result }
    {
        let key = match self.operators(alloc, 0) {
            Ok(key) => key,
            Err(fault) => {
                drop(operand);
                return Err(fault);
            }
        };
        let close = match self.expect_place(TokenKind::Operator(Operator::RightBracket)) {
            Ok(close) => close,
            Err(fault) => {
                drop(key);
                drop(operand);
                return Err(fault);
            }
        };
        indexed(alloc, operand, key, close.end)
    }

    /// Reads the arguments of a call, from after its `(` to its `)`, and returns the call.
    #[cycle(expressions)]
    pub(crate) fn call(&mut self, alloc: Global, callee: Operand) -> Result<Operand, Fault>
        requires ready { IsReady I.can_next I.remaining self.old }
        requires depth { callee.depth ≤ 65 }
        ensures { ReadsOn X.AsStr I.Iterator
            (λ t p s. item_due (in_call p.tree) no_exprs (p.tokens ++ (t ∷ [])) s) 7 self.old self.new callee result }
    {
        let CallArguments {
            items,
            keywords,
            end,
        } = match self.arguments(alloc) {
            Ok(arguments) => arguments,
            Err(fault) => {
                drop(callee);
                return Err(fault);
            }
        };
        called(alloc, callee, items, keywords, end)
    }

    /// Reads the arguments of a call, from after its `(` to its `)`: positional ones, then those by name.
    #[cycle(expressions)]
    fn arguments(&mut self, alloc: Global) -> Result<CallArguments, Fault>
        requires { IsReady I.can_next I.remaining self.old }
        ensures { ReadsArguments X.AsStr I.Iterator self.old self.new result }
    {
        let mut items = Items::new(alloc);
        loop {
            if self.sees(TokenKind::Operator(Operator::RightParenthesis)) {
                let close = self.take_place()?;
                return Ok(CallArguments {
                    items,
                    keywords: Keywords::new(alloc),
                    end: close.end,
                });
            }
            let item = self.operators(alloc, 0)?;
            if self.sees(TokenKind::Operator(Operator::Equal)) {
                let Some(name) = plain_name(item) else {
                    return Err(self.misfit());
                };
                self.skip()?;
                let Arguments { keywords, end } = self.keywords(alloc, name)?;
                return Ok(CallArguments {
                    items,
                    keywords,
                    end,
                });
            }
            items.push(item)?;
            if !self.sees(TokenKind::Operator(Operator::Comma)) {
                let close = self.expect_place(TokenKind::Operator(Operator::RightParenthesis))?;
                return Ok(CallArguments {
                    items,
                    keywords: Keywords::new(alloc),
                    end: close.end,
                });
            }
            self.skip()?;
        }
    }

    /// Reads arguments by name, from after the `=` of the first to the closing parenthesis.
    #[cycle(expressions)]
    fn keywords(&mut self, alloc: Global, first: Name) -> Result<Arguments, Fault>
        requires { IsReady I.can_next I.remaining self.old }
        ensures { ReadsKeywords X.AsStr I.Iterator self.old self.new first result }
    {
        let mut keywords = Keywords::new(alloc);
        let mut name = first;
        loop {
            let value = self.operators(alloc, 0)?;
            keywords.push(name, value)?;
            if !self.sees(TokenKind::Operator(Operator::Comma)) {
                let close = self.expect_place(TokenKind::Operator(Operator::RightParenthesis))?;
                return Ok(Arguments {
                    keywords,
                    end: close.end,
                });
            }
            self.skip()?;
            if self.sees(TokenKind::Operator(Operator::RightParenthesis)) {
                let close = self.take_place()?;
                return Ok(Arguments {
                    keywords,
                    end: close.end,
                });
            }
            name = self.name(alloc)?;
            self.expect_place(TokenKind::Operator(Operator::Equal))?;
        }
    }
}
