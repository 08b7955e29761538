//! Annotations, by descent, with recursion only at brackets. Each function takes the tokens that it reads, and fails as
//! `Reader::misfit` does at the first that does not fit, or if an allocation fails. As in `statement.rt`, tokens and names
//! are dropped by name.
ghost use Rattle.std.specs.Prelude.{◌≡◌, ◌≤◌, MatchResult, IfOk, false};
ghost use Rattle.pc_source.specs.declared.fault.Fault.TheVariants as fault;
ghost use Rattle.pc_token.specs.declared.token.TokenKind.TheVariants as kind;
ghost use Rattle.pc_token.specs.declared.token.Operator.TheVariants as sign;
ghost use Rattle.pc_token.specs.Lexeme.{Lexeme};
ghost use Rattle.pc_tree.specs.Tree.{Ann as AnnTree, Anns, no_anns, applied as applied_tree, union as union_tree};
ghost use Rattle.pc_tree.specs.Tree.{name_of};
ghost use Rattle.pc_grammar.specs.Machine.Finishing.{add_ann};
ghost use Rattle.pc_grammar.specs.Machine.States.{argument_due, empty_opened};
ghost use Rattle.std.specs.Prelude.{List};
ghost use Rattle.pc_reader.specs.Reading.{IsReady, IsAhead};
ghost use Rattle.pc_parse.specs.Internal.WholeTrees.{ReadsAnn};
ghost use Rattle.pc_parse.specs.Internal.Annotations.{KeepsAnn, KeepsAnns, MakesAnn, ReadsUnion, ReadsPart};
ghost use Rattle.pc_parse.specs.Internal.Annotations.{ReadsApplied};

use crate::parser::Parser;
use pc_reader::{Reader, deeper, depth_above};
use pc_source::{Fault, Place};
use pc_token::{Keyword, Operator, Token, TokenKind};
use pc_tree::{Ann, Name, put_last};
use std::alloc::Global;
use std::convert::AsStr;

/// An annotation that has been read, at its place. One deeper than 64 is replaced by the annotation `None`.
#[derive(Drop)]
pub(crate) struct Annotation {
    pub ann: Ann,
    pub place: Place,
    /// Its depth, 65 if deeper than 64.
    pub depth: u8,
}

/// Annotations, and the depth of a node over them, 65 if deeper than 64.
#[derive(Drop)]
struct Annotations {
    anns: Vec<Ann>,
    depth: u8,
}

impl Annotations {
    /// Creates an empty list.
    fn new(alloc: Global) -> Annotations
        ensures { KeepsAnns result no_anns }
    {
        Annotations {
            anns: Vec::new(alloc),
            depth: 0,
        }
    }

    /// Appends an annotation.
    fn push(&mut self, annotation: Annotation) -> Result<(), Fault>
        requires { annotation.depth ≤ 65 }
        ensures { MatchResult result
            (λ _. (rest : Anns) (a : AnnTree) (ts : List Lexeme) → KeepsAnns self.old rest → KeepsAnn annotation a ts
            → KeepsAnns self.new (add_ann rest a)) (λ e. e ≡ fault.OutOfMemory) }
    {
        self.depth = deeper(self.depth, depth_above(annotation.depth));
        put_last(&mut self.anns, annotation.ann)?;
        Ok(())
    }
}

/// Returns a name with these arguments.
fn applied(head: Name, arguments: Annotations, place: Place) -> Annotation
    ensures { (anns : Anns) → KeepsAnns arguments anns
        → MakesAnn result (λ q. applied_tree q (name_of head) anns) place.start place.end }
{
    let depth = arguments.depth;
    if depth > 64 {
        return Annotation {
            ann: Ann::NoneValue(place),
            place,
            depth,
        };
    }
    Annotation {
        ann: Ann::Apply {
            place,
            head,
            arguments: arguments.anns,
        },
        place,
        depth,
    }
}

/// Returns the union of these parts.
fn united(parts: Annotations, place: Place) -> Annotation
    ensures { (anns : Anns) → KeepsAnns parts anns → MakesAnn result (λ q. union_tree q anns) place.start place.end }
{
    let depth = parts.depth;
    if depth > 64 {
        return Annotation {
            ann: Ann::NoneValue(place),
            place,
            depth,
        };
    }
    Annotation {
        ann: Ann::Union(place, parts.anns),
        place,
        depth,
    }
}

/// Returns an annotation without parts, of depth 0.
fn single(ann: Ann, place: Place) -> Annotation
    ensures { result ≡ record { ann = ann; place = place; depth = 0 } }
{
    Annotation {
        ann,
        place,
        depth: 0,
    }
}

/// Reads an annotation: a part, or parts with `|` between them.
#[cycle(annotations)]
fn union<X: AsStr + Drop, I: Iterator<Item = Result<Token<X>, Fault>> + Drop>(
    reader: &mut Reader<X, I>,
    alloc: Global,
) -> Result<Annotation, Fault>
    requires { IsReady I.can_next I.remaining reader.old }
    ensures reads { ReadsUnion X.AsStr I.Iterator reader.old reader.new result }
    ensures over { IfOk result (λ _. IsAhead (kind.Operator sign.Bar) reader.new.ahead ≡ false) }
{
    let first = part(reader, alloc)?;
    if !reader.sees(TokenKind::Operator(Operator::Bar)) {
        return Ok(first);
    }
    let start = first.place.start;
    let mut parts = Annotations::new(alloc);
    parts.push(first)?;
    drop(reader.take()?);
    loop {
        let part = part(reader, alloc)?;
        let end = part.place.end;
        parts.push(part)?;
        if !reader.sees(TokenKind::Operator(Operator::Bar)) {
            return Ok(united(parts, Place { start, end }));
        }
        drop(reader.take()?);
    }
}

/// Reads a name, `None`, or a name with brackets after it.
#[cycle(annotations)]
fn part<X: AsStr + Drop, I: Iterator<Item = Result<Token<X>, Fault>> + Drop>(
    reader: &mut Reader<X, I>,
    alloc: Global,
) -> Result<Annotation, Fault>
    requires { IsReady I.can_next I.remaining reader.old }
    ensures { ReadsPart X.AsStr I.Iterator reader.old reader.new result }
{
    if reader.sees(TokenKind::Keyword(Keyword::None)) {
        let none = reader.take()?;
        let place = none.place;
        drop(none);
        return Ok(single(Ann::NoneValue(place), place));
    }
    let name = reader.name(alloc)?;
    if !reader.sees(TokenKind::Operator(Operator::LeftBracket)) {
        let place = name.place;
        return Ok(single(Ann::Name(name), place));
    }
    drop(reader.take()?);
    arguments(reader, alloc, name)
}

/// Reads the arguments or the `()` after a name and `[`, and the closing bracket.
#[cycle(annotations)]
fn arguments<X: AsStr + Drop, I: Iterator<Item = Result<Token<X>, Fault>> + Drop>(
    reader: &mut Reader<X, I>,
    alloc: Global,
    head: Name,
) -> Result<Annotation, Fault>
    requires { IsReady I.can_next I.remaining reader.old }
    ensures { ReadsApplied X.AsStr I.Iterator
        (λ n ts parts before s. argument_due n ts parts before s) reader.old reader.new head result }
{
    let start = head.place.start;
    if reader.sees(TokenKind::Operator(Operator::LeftParenthesis)) {
        drop(reader.take()?);
        return no_arguments(reader, head);
    }
    let mut arguments = Annotations::new(alloc);
    loop {
        let argument = match union(reader, alloc) {
            Ok(argument) => argument,
            Err(fault) => {
                drop(head);
                return Err(fault);
            }
        };
        arguments.push(argument)?;
        if !reader.sees(TokenKind::Operator(Operator::Comma)) {
            let close = reader.expect(TokenKind::Operator(Operator::RightBracket))?;
            let place = Place {
                start,
                end: close.place.end,
            };
            drop(close);
            return Ok(applied(head, arguments, place));
        }
        match reader.take() {
            Ok(comma) => drop(comma),
            Err(fault) => {
                drop(head);
                return Err(fault);
            }
        }
    }
}

/// Reads the `)]` after a name and `[(`.
fn no_arguments<X: AsStr + Drop, I: Iterator<Item = Result<Token<X>, Fault>> + Drop>(
    reader: &mut Reader<X, I>,
    head: Name,
) -> Result<Annotation, Fault>
    requires { IsReady I.can_next I.remaining reader.old }
    ensures { ReadsApplied X.AsStr I.Iterator
        (λ n ts parts before s. empty_opened n ts parts before s) reader.old reader.new head result }
{
    drop(reader.expect(TokenKind::Operator(Operator::RightParenthesis))?);
    let close = reader.expect(TokenKind::Operator(Operator::RightBracket))?;
    let place = Place {
        start: head.place.start,
        end: close.place.end,
    };
    drop(close);
    Ok(single(Ann::ApplyEmpty(place, head), place))
}

impl<X: AsStr + Drop, I: Iterator<Item = Result<Token<X>, Fault>> + Drop> Parser<X, I> {
    /// Reads a whole annotation and notes its depth.
    pub(crate) fn annotation(&mut self, alloc: Global) -> Result<Ann, Fault>
        requires { IsReady I.can_next I.remaining self.old.reader }
        ensures { ReadsAnn X.AsStr I.Iterator self.old self.new result }
    {
        let annotation = union(&mut self.reader, alloc)?;
        self.note(annotation.place.start, annotation.depth);
        Ok(annotation.ann)
    }
}
