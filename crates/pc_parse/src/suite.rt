//! Suites, and the statements that have them. As in `statement.rt`, tokens and expressions are dropped by name.
ghost use Rattle.std.specs.Prelude.{◌≡◌};
ghost use Rattle.pc_grammar.specs.Machine.Kinds.{leads_while, leads_for, leads_if};
ghost use Rattle.pc_reader.specs.Reading.{IsReady};
ghost use Rattle.pc_parse.specs.Internal.Suites.{MayGoOn, HasLead, ReadsSuite, ReadsStmt, ReadsHeaded, ReadsElse};

use crate::parser::Parser;
use crate::statement::{Lead, OneWordStatement};
use pc_source::Fault;
use pc_token::{Keyword, Operator, Token, TokenKind};
use pc_tree::{Branch, Expr, Stmt, StmtKind, put_last};
use std::alloc::Global;
use std::convert::AsStr;

impl<X: AsStr + Drop, I: Iterator<Item = Result<Token<X>, Fault>> + Drop> Parser<X, I> {
    /// Reads the statements of a suite, from after its `:` to its end. Language Reference 8 "Compound statements".
    #[cycle(statements)]
    pub(crate) fn suite(&mut self, alloc: Global) -> Result<Vec<Stmt>, Fault>
        requires { IsReady I.can_next I.remaining self.old.reader }
        ensures { ReadsSuite X.AsStr I.Iterator self.old self.new result }
    {
        drop(self.reader.expect(TokenKind::Newline)?);
        drop(self.reader.expect(TokenKind::Indent)?);
        let mut stmts = Vec::new(alloc);
        loop {
            let stmt = self.statement(alloc)?;
            put_last(&mut stmts, stmt)?;
            if self.reader.sees(TokenKind::Dedent) {
                drop(self.reader.take()?);
                return Ok(stmts);
            }
        }
    }

    /// Reads a statement of any form.
    #[cycle(statements)]
    fn statement(&mut self, alloc: Global) -> Result<Stmt, Fault>
        requires { IsReady I.can_next I.remaining self.old.reader }
        ensures { ReadsStmt X.AsStr I.Iterator
            (λ done. MayGoOn done self.old) self.old self.new result }
    {
        match self.lead() {
            Lead::Pass => self.word(OneWordStatement::Pass),
            Lead::Break => self.word(OneWordStatement::Break),
            Lead::Continue => self.word(OneWordStatement::Continue),
            Lead::Return => self.returned(alloc),
            Lead::Assert => self.asserted(alloc),
            Lead::While => self.while_loop(alloc),
            Lead::For => self.for_loop(alloc),
            Lead::If => self.conditional(alloc),
            Lead::Dedent => Err(self.reader.misfit()),
            Lead::Other => self.line(alloc),
        }
    }

    /// Reads `while`, a condition and its suite.
    #[cycle(statements)]
    fn while_loop(&mut self, alloc: Global) -> Result<Stmt, Fault>
        requires { IsReady I.can_next I.remaining self.old.reader }
        ensures { ReadsStmt X.AsStr I.Iterator
            (λ _. HasLead leads_while self.old) self.old self.new result }
    {
        let token = self.reader.take()?;
        let first = token.place;
        drop(token);
        let (condition, body) = self.headed(alloc)?;
        let boxed = Box::new(alloc, condition)?;
        Ok(Stmt {
            first,
            kind: StmtKind::While(boxed, body),
        })
    }

    /// Reads `for`, a name, `in`, an iterable, and its suite.
    #[cycle(statements)]
    fn for_loop(&mut self, alloc: Global) -> Result<Stmt, Fault>
        requires { IsReady I.can_next I.remaining self.old.reader }
        ensures { ReadsStmt X.AsStr I.Iterator
            (λ _. HasLead leads_for self.old) self.old self.new result }
    {
        let token = self.reader.take()?;
        let first = token.place;
        drop(token);
        let target = self.reader.name(alloc)?;
        drop(self.reader.expect(TokenKind::Keyword(Keyword::In))?);
        let (iterable, body) = self.headed(alloc)?;
        let boxed = Box::new(alloc, iterable)?;
        Ok(Stmt {
            first,
            kind: StmtKind::For {
                target,
                iterable: boxed,
                body,
            },
        })
    }

    /// Reads `if`, each `elif`, and `else`, with their suites.
    #[cycle(statements)]
    fn conditional(&mut self, alloc: Global) -> Result<Stmt, Fault>
        requires { IsReady I.can_next I.remaining self.old.reader }
        ensures { ReadsStmt X.AsStr I.Iterator
            (λ _. HasLead leads_if self.old) self.old self.new result }
    {
        let token = self.reader.take()?;
        let first = token.place;
        drop(token);
        let mut branches = Vec::new(alloc);
        loop {
            let (condition, body) = self.headed(alloc)?;
            put_last(&mut branches, Branch { condition, body })?;
            if !self.reader.sees(TokenKind::Keyword(Keyword::Elif)) {
                let otherwise = self.otherwise(alloc)?;
                return Ok(Stmt {
                    first,
                    kind: StmtKind::If(branches, otherwise),
                });
            }
            drop(self.reader.take()?);
        }
    }

    /// Reads an expression, `:`, and the suite after it.
    #[cycle(statements)]
    fn headed(&mut self, alloc: Global) -> Result<(Expr, Vec<Stmt>), Fault>
        requires { IsReady I.can_next I.remaining self.old.reader }
        ensures { ReadsHeaded X.AsStr I.Iterator self.old self.new result }
    {
        let head = self.expression(alloc)?;
        match self.reader.expect(TokenKind::Operator(Operator::Colon)) {
            Ok(colon) => drop(colon),
            Err(fault) => {
                drop(head);
                return Err(fault);
            }
        }
        let body = match self.suite(alloc) {
            Ok(body) => body,
            Err(fault) => {
                drop(head);
                return Err(fault);
            }
        };
        Ok((head.expr, body))
    }

    /// Reads `else` and its suite, or nothing if there is none.
    #[cycle(statements)]
    fn otherwise(&mut self, alloc: Global) -> Result<Vec<Stmt>, Fault>
        requires { IsReady I.can_next I.remaining self.old.reader }
        ensures { ReadsElse X.AsStr I.Iterator self.old self.new result }
    {
        if !self.reader.sees(TokenKind::Keyword(Keyword::Else)) {
            return Ok(Vec::new(alloc));
        }
        drop(self.reader.take()?);
        drop(self.reader.expect(TokenKind::Operator(Operator::Colon))?);
        self.suite(alloc)
    }
}
