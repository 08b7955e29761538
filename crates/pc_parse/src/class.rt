//! Dataclasses and their members. As in `statement.rt`, tokens and annotations are dropped by name.
ghost use Rattle.std.specs.Prelude.{◌≡◌};
ghost use Rattle.pc_reader.specs.Reading.{IsReady};
ghost use Rattle.pc_parse.specs.Internal.Classes.{ReadsBase, ReadsField, ReadsMember, ReadsMembers, ReadsClass};

use crate::parser::Parser;
use pc_reader::Reader;
use pc_source::Fault;
use pc_token::{Keyword, Operator, Token, TokenKind};
use pc_tree::{ClassDef, Field, Member, Name, put_last};
use std::alloc::Global;
use std::convert::AsStr;

/// Reads from after the name of a class to its first member, and returns its base, if it names one.
fn base<X: AsStr + Drop, I: Iterator<Item = Result<Token<X>, Fault>> + Drop>(
    reader: &mut Reader<X, I>,
    alloc: Global,
) -> Result<Option<Name>, Fault>
    requires { IsReady I.can_next I.remaining reader.old }
    ensures { ReadsBase X.AsStr I.Iterator reader.old reader.new result }
{
    if !reader.sees(TokenKind::Operator(Operator::LeftParenthesis)) {
        reader.fixed(&[
            TokenKind::Operator(Operator::Colon),
            TokenKind::Newline,
            TokenKind::Indent,
        ])?;
        return Ok(None);
    }
    drop(reader.take()?);
    let base = reader.name(alloc)?;
    reader.fixed(&[
        TokenKind::Operator(Operator::RightParenthesis),
        TokenKind::Operator(Operator::Colon),
        TokenKind::Newline,
        TokenKind::Indent,
    ])?;
    Ok(Some(base))
}

impl<X: AsStr + Drop, I: Iterator<Item = Result<Token<X>, Fault>> + Drop> Parser<X, I> {
    /// Reads a field and the end of its line.
    fn field(&mut self, alloc: Global) -> Result<Field, Fault>
        requires { IsReady I.can_next I.remaining self.old.reader }
        ensures { ReadsField X.AsStr I.Iterator self.old self.new result }
    {
        let name = self.reader.name(alloc)?;
        drop(self.reader.expect(TokenKind::Operator(Operator::Colon))?);
        let annotation = self.annotation(alloc)?;
        let default = match self.reader.default(alloc) {
            Ok(default) => default,
            Err(fault) => {
                drop(annotation);
                return Err(fault);
            }
        };
        let field = Field {
            name,
            annotation,
            default,
        };
        match self.reader.expect(TokenKind::Newline) {
            Ok(end) => {
                drop(end);
                Ok(field)
            }
            Err(fault) => {
                drop(field);
                Err(fault)
            }
        }
    }

    /// Reads a field or a method.
    fn member(&mut self, alloc: Global) -> Result<Member, Fault>
        requires { IsReady I.can_next I.remaining self.old.reader }
        ensures { ReadsMember X.AsStr I.Iterator self.old self.new result }
    {
        if self.reader.sees(TokenKind::Keyword(Keyword::Def)) {
            drop(self.reader.take()?);
            let method = self.function(alloc, true)?;
            return Ok(Member::Method(method));
        }
        let field = self.field(alloc)?;
        Ok(Member::Field(field))
    }

    /// Reads the members of a class, or `pass`, and the end of the suite.
    fn members(&mut self, alloc: Global) -> Result<Vec<Member>, Fault>
        requires { IsReady I.can_next I.remaining self.old.reader }
        ensures { ReadsMembers X.AsStr I.Iterator self.old self.new result }
    {
        let mut members = Vec::new(alloc);
        if self.reader.sees(TokenKind::Keyword(Keyword::Pass)) {
            self.reader.fixed(&[
                TokenKind::Keyword(Keyword::Pass),
                TokenKind::Newline,
                TokenKind::Dedent,
            ])?;
            return Ok(members);
        }
        loop {
            let member = self.member(alloc)?;
            put_last(&mut members, member)?;
            if self.reader.sees(TokenKind::Dedent) {
                drop(self.reader.take()?);
                return Ok(members);
            }
        }
    }

    /// Reads a class, from after its `@`.
    pub(crate) fn class(&mut self, alloc: Global) -> Result<ClassDef, Fault>
        requires { IsReady I.can_next I.remaining self.old.reader }
        ensures { ReadsClass X.AsStr I.Iterator self.old self.new result }
    {
        let word = self.reader.expect_name("dataclass")?;
        let decorator = word.place;
        drop(word);
        self.reader
            .fixed(&[TokenKind::Newline, TokenKind::Keyword(Keyword::Class)])?;
        let name = self.reader.name(alloc)?;
        let base = base(&mut self.reader, alloc)?;
        let members = self.members(alloc)?;
        Ok(ClassDef {
            decorator,
            name,
            base,
            members,
        })
    }
}
