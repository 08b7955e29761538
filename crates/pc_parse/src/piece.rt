//! The items of a module, its last line, and whole modules. As in `statement.rt`, tokens, annotations and expressions are
//! dropped by name.
ghost use Rattle.std.specs.Prelude.{◌≡◌, ◌&&◌, IfOk, codes, bytes_eq};
ghost use Rattle.pc_token.specs.declared.token.TokenKind.TheVariants as kind;
ghost use Rattle.pc_token.specs.declared.token.Operator.TheVariants as sign;
ghost use Rattle.pc_tree.specs.Tree.{name_of};
ghost use Rattle.pc_reader.specs.Reading.{IsReady, IsAhead};
ghost use Rattle.pc_parse.specs.Internal.Modules.{ReadsConstant, ReadsPiece, ReadsModule};

use crate::optional_imports::read_headers;
use crate::parser::Parser;
use pc_reader::Reader;
use pc_source::{Fault, Place};
use pc_token::{Keyword, Operator, Token, TokenKind};
use pc_tree::{Constant, Item, ItemKind, Keys, Module, Name};
use std::alloc::Global;
use std::convert::AsStr;

/// An item of the module, or the place of `main` in its last line.
#[derive(Drop)]
enum Piece {
    Item(Item),
    Last(Place),
}

/// Whether `name` begins the last line of the module.
fn begins_last_line<X: AsStr + Drop, I: Iterator<Item = Result<Token<X>, Fault>> + Drop>(
    reader: &Reader<X, I>,
    name: &Name,
) -> bool
    ensures { result ≡ (IsAhead (kind.Operator sign.LeftParenthesis) reader.now.ahead
        && bytes_eq (name_of name.now).text (codes "main")) }
{
    reader.sees(TokenKind::Operator(Operator::LeftParenthesis)) && name.text.as_str() == "main"
}

impl<X: AsStr + Drop, I: Iterator<Item = Result<Token<X>, Fault>> + Drop> Parser<X, I> {
    /// Reads a constant, from after its name, and the end of its line.
    fn constant(&mut self, alloc: Global, name: Name) -> Result<Constant, Fault>
        requires { IsReady I.can_next I.remaining self.old.reader }
        ensures { ReadsConstant X.AsStr I.Iterator self.old self.new (name_of name) result }
    {
        let annotation = self.annotation_behind(alloc, Operator::Colon)?;
        match self.reader.expect(TokenKind::Operator(Operator::Equal)) {
            Ok(equal) => drop(equal),
            Err(fault) => {
                drop(annotation);
                return Err(fault);
            }
        }
        let value = match self.expression(alloc) {
            Ok(value) => value,
            Err(fault) => {
                drop(annotation);
                return Err(fault);
            }
        };
        let constant = Constant {
            name,
            annotation,
            value: value.expr,
        };
        match self.reader.expect(TokenKind::Newline) {
            Ok(end) => {
                drop(end);
                Ok(constant)
            }
            Err(fault) => {
                drop(constant);
                Err(fault)
            }
        }
    }

    /// Reads an item of the module, or its last line.
    fn piece(&mut self, alloc: Global) -> Result<Piece, Fault>
        requires { IsReady I.can_next I.remaining self.old.reader }
        ensures { ReadsPiece X.AsStr I.Iterator self.old self.new result }
    {
        if self.reader.sees(TokenKind::Operator(Operator::At)) {
            let at = self.reader.take()?;
            let first = at.place;
            drop(at);
            let class = self.class(alloc)?;
            return Ok(Piece::Item(Item {
                first,
                kind: ItemKind::Class(class),
            }));
        }
        if self.reader.sees(TokenKind::Keyword(Keyword::Def)) {
            let def = self.reader.take()?;
            let first = def.place;
            drop(def);
            let function = self.function(alloc, false)?;
            return Ok(Piece::Item(Item {
                first,
                kind: ItemKind::Def(function),
            }));
        }
        let name = self.reader.name(alloc)?;
        let first = name.place;
        if begins_last_line(&self.reader, &name) {
            self.reader.fixed(&[
                TokenKind::Operator(Operator::LeftParenthesis),
                TokenKind::Operator(Operator::RightParenthesis),
                TokenKind::Newline,
                TokenKind::End,
            ])?;
            return Ok(Piece::Last(first));
        }
        let constant = self.constant(alloc, name)?;
        Ok(Piece::Item(Item {
            first,
            kind: ItemKind::Constant(constant),
        }))
    }

    /// Reads a whole module, which gets these hash keys.
    pub(crate) fn module(&mut self, alloc: Global, keys: Keys) -> Result<Module, Fault>
        requires { IsReady I.can_next I.remaining self.old.reader }
        ensures keyed { IfOk result (λ m. m.keys ≡ keys) }
        ensures read { ReadsModule X.AsStr I.Iterator self.old self.new result }
    {
        let headers = read_headers(&mut self.reader)?;
        let mut items = Vec::new(alloc);
        loop {
            match self.piece(alloc)? {
                Piece::Item(item) => items.push(item)?,
                Piece::Last(main) => {
                    if self.reader.kind().is_some() {
                        return Err(self.reader.misfit());
                    }
                    return Ok(Module {
                        imports_dataclass: headers.dataclass,
                        imports_any: headers.any,
                        items,
                        main,
                        keys,
                    });
                }
            }
        }
    }
}
