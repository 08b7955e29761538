//! Statements of one line. Each function takes the tokens that it reads, and fails as `Reader::misfit` does at the
//! first that does not fit, or if an allocation fails. Values with many variants, and tokens, are dropped by name: proofs
//! take long where one goes out of scope.
ghost use Rattle.std.specs.Prelude.{◌≡◌, MatchOption, MatchResult, Some, None};
ghost use Rattle.pc_tree.specs.Tree.{expr_of, target_of};
ghost use Rattle.pc_grammar.specs.Machine.Finishing.{if_plain, target_of_tree};
ghost use Rattle.pc_grammar.specs.Machine.Kinds.{lead_of as lead_of_kind, leads_return, leads_assert, leads_other};
ghost use Rattle.pc_grammar.specs.Machine.{at};
ghost use Rattle.pc_grammar.specs.Machine.States.{ExpressionPosition, whole, operand};
ghost use Rattle.pc_reader.specs.declared.operand.Operand.{Operand};
ghost use Rattle.pc_reader.specs.Reading.{Blames, Came, IsReady};
ghost use Rattle.pc_parse.specs.Internal.WholeTrees.{GivesWhole};
ghost use Rattle.pc_parse.specs.Internal.Suites.{lead_view, HasLead, HasWord, kind_of_word, ReadsStmt, ReadsLineEnd};
ghost use Rattle.pc_parse.specs.Internal.Suites.{ReadsLocal};

use crate::parser::Parser;
use pc_reader::{Operand, plain_name};
use pc_source::{Fault, Place};
use pc_token::{Keyword, Operator, Token, TokenKind};
use pc_tree::{Expr, Name, Stmt, StmtKind, Target};
use std::alloc::Global;
use std::convert::AsStr;

/// The beginning of a statement, or the end of a suite. Language Reference 7 "Simple statements" and 8 "Compound
/// statements".
#[derive(Clone, Copy)]
pub(crate) enum Lead {
    Pass,
    Break,
    Continue,
    Return,
    Assert,
    While,
    For,
    If,
    Dedent,
    /// An expression, or a token that begins no statement.
    Other,
}

/// A statement of one word.
#[derive(Clone, Copy, Debug)]
pub(crate) enum OneWordStatement {
    Pass,
    Break,
    Continue,
}

/// Returns the statement that is this word.
fn kind_of_word(word: OneWordStatement) -> StmtKind
    ensures { result ≡ kind_of_word word }
{
    match word {
        OneWordStatement::Pass => StmtKind::Pass,
        OneWordStatement::Break => StmtKind::Break,
        OneWordStatement::Continue => StmtKind::Continue,
    }
}

/// Returns the beginning of a statement, or the end of a suite, that a token of this kind is.
fn lead_of(kind: TokenKind) -> Lead
    ensures { lead_view result ≡ lead_of_kind kind }
{
    match kind {
        TokenKind::Keyword(Keyword::Pass) => Lead::Pass,
        TokenKind::Keyword(Keyword::Break) => Lead::Break,
        TokenKind::Keyword(Keyword::Continue) => Lead::Continue,
        TokenKind::Keyword(Keyword::Return) => Lead::Return,
        TokenKind::Keyword(Keyword::Assert) => Lead::Assert,
        TokenKind::Keyword(Keyword::While) => Lead::While,
        TokenKind::Keyword(Keyword::For) => Lead::For,
        TokenKind::Keyword(Keyword::If) => Lead::If,
        TokenKind::Dedent => Lead::Dedent,
        _ => Lead::Other,
    }
}

/// Returns the target that an expression is, if it is one without parentheses.
fn target(operand: Operand) -> Option<Target>
    ensures { MatchOption result (if_plain operand.plain (target_of_tree (expr_of operand.expr)) ≡ None)
        (λ t. if_plain operand.plain (target_of_tree (expr_of operand.expr)) ≡ Some (target_of t)) }
{
    if !operand.plain {
        drop(operand);
        return None;
    }
    match operand.expr {
        Expr::Name(name) => Some(Target::Name(name)),
        Expr::Attribute {
            place,
            object,
            name: field,
        } => Some(Target::Attribute {
            place,
            object,
            name: field,
        }),
        Expr::Index { place, object, key } => Some(Target::Index { place, object, key }),
        other => {
            drop(other);
            None
        }
    }
}

impl<X: AsStr + Drop, I: Iterator<Item = Result<Token<X>, Fault>> + Drop> Parser<X, I> {
    /// Returns the beginning of a statement, or the end of a suite, that the token ahead is.
    pub(crate) fn lead(&self) -> Lead
        ensures { HasLead (lead_view result) self.now }
    {
        match self.reader.kind() {
            Some(kind) => lead_of(kind),
            None => Lead::Other,
        }
    }

    /// Reads the end of the line and returns `read`, the statement before it.
    fn line_end<T: Drop>(&mut self, read: T) -> Result<T, Fault>
        requires { IsReady I.can_next I.remaining self.old.reader }
        ensures { ReadsLineEnd X.AsStr I.Iterator self.old self.new read result }
    {
        drop(self.reader.expect(TokenKind::Newline)?);
        Ok(read)
    }

    /// Reads a whole expression into a box and notes its depth.
    fn boxed_expression(&mut self, alloc: Global) -> Result<Box<Expr>, Fault>
        requires { IsReady I.can_next I.remaining self.old.reader }
        ensures { MatchResult result
            (λ b. (o : Operand) × GivesWhole X.AsStr I.Iterator self.old self.new o × (b.value ≡ o.expr))
            (λ e. Blames e (λ o. (c : ExpressionPosition) → Came X.text I.next_gives self.old.reader
            (at (operand (whole c))) o)) }
    {
        let value = self.expression(alloc)?;
        Ok(Box::new(alloc, value.expr)?)
    }

    /// Reads `pass`, `break` or `continue`, and the end of the line.
    pub(crate) fn word(&mut self, word: OneWordStatement) -> Result<Stmt, Fault>
        requires { IsReady I.can_next I.remaining self.old.reader }
        ensures { ReadsStmt X.AsStr I.Iterator
            (λ _. HasWord X.text (kind_of_word word) self.old) self.old self.new result }
    {
        let token = self.reader.take()?;
        let first = token.place;
        drop(token);
        self.line_end(Stmt {
            first,
            kind: kind_of_word(word),
        })
    }

    /// Reads `return`, with or without a value, and the end of the line.
    pub(crate) fn returned(&mut self, alloc: Global) -> Result<Stmt, Fault>
        requires { IsReady I.can_next I.remaining self.old.reader }
        ensures { ReadsStmt X.AsStr I.Iterator
            (λ _. HasLead leads_return self.old) self.old self.new result }
    {
        let token = self.reader.take()?;
        let first = token.place;
        drop(token);
        if self.reader.sees(TokenKind::Newline) {
            return self.line_end(Stmt {
                first,
                kind: StmtKind::Return(None),
            });
        }
        let value = self.boxed_expression(alloc)?;
        self.line_end(Stmt {
            first,
            kind: StmtKind::Return(Some(value)),
        })
    }

    /// Reads `assert`, a condition, a comma and a message if there is one, and the end of the line.
    pub(crate) fn asserted(&mut self, alloc: Global) -> Result<Stmt, Fault>
        requires { IsReady I.can_next I.remaining self.old.reader }
        ensures { ReadsStmt X.AsStr I.Iterator
            (λ _. HasLead leads_assert self.old) self.old self.new result }
    {
        let token = self.reader.take()?;
        let first = token.place;
        drop(token);
        let condition = self.boxed_expression(alloc)?;
        if self.reader.sees(TokenKind::Operator(Operator::Comma)) {
            drop(self.reader.take()?);
            let message = self.boxed_expression(alloc)?;
            return self.line_end(Stmt {
                first,
                kind: StmtKind::Assert(condition, Some(message)),
            });
        }
        self.line_end(Stmt {
            first,
            kind: StmtKind::Assert(condition, None),
        })
    }

    /// Reads a statement that begins with an expression: an assignment, an annotated local, or the expression alone.
    pub(crate) fn line(&mut self, alloc: Global) -> Result<Stmt, Fault>
        requires { IsReady I.can_next I.remaining self.old.reader }
        ensures { ReadsStmt X.AsStr I.Iterator
            (λ _. HasLead leads_other self.old) self.old self.new result }
    {
        let Some(first) = self.reader.place() else {
            return Err(self.reader.misfit());
        };
        let begun = self.expression(alloc)?;
        if self.reader.sees(TokenKind::Operator(Operator::Equal)) {
            let Some(target) = target(begun) else {
                return Err(self.reader.misfit());
            };
            drop(self.reader.take()?);
            let value = match self.boxed_expression(alloc) {
                Ok(value) => value,
                Err(fault) => {
                    drop(target);
                    return Err(fault);
                }
            };
            return self.line_end(Stmt {
                first,
                kind: StmtKind::Assign(target, value),
            });
        }
        if self.reader.sees(TokenKind::Operator(Operator::Colon)) {
            let Some(name) = plain_name(begun) else {
                return Err(self.reader.misfit());
            };
            drop(self.reader.take()?);
            return self.annotated(alloc, first, name);
        }
        self.line_end(Stmt {
            first,
            kind: StmtKind::Expr(begun.expr),
        })
    }

    /// Reads the annotation of a local, from after its `:`, its value if there is one, and the end of the line.
    fn annotated(&mut self, alloc: Global, first: Place, name: Name) -> Result<Stmt, Fault>
        requires { IsReady I.can_next I.remaining self.old.reader }
        ensures { ReadsLocal X.AsStr I.Iterator first name self.old self.new result }
    {
        let annotation = self.annotation(alloc)?;
        let boxed = Box::new(alloc, annotation)?;
        if self.reader.sees(TokenKind::Operator(Operator::Equal)) {
            drop(self.reader.take()?);
            let value = self.boxed_expression(alloc)?;
            return self.line_end(Stmt {
                first,
                kind: StmtKind::Annotated {
                    target: name,
                    annotation: boxed,
                    value: Some(value),
                },
            });
        }
        self.line_end(Stmt {
            first,
            kind: StmtKind::Annotated {
                target: name,
                annotation: boxed,
                value: None,
            },
        })
    }
}
