//! The headers of a module. As in `statement.rt`, tokens are dropped by name.
ghost use Rattle.std.specs.Prelude.{◌≡◌};
ghost use Rattle.pc_reader.specs.Reading.{IsReady};
ghost use Rattle.pc_reader.specs.Internal.FixedWords.{ReadsFixed};
ghost use Rattle.pc_parse.specs.Internal.Modules.{import_words, ReadsHeaders};

use pc_reader::Reader;
use pc_source::Fault;
use pc_token::{Keyword, Token, TokenKind};
use std::convert::AsStr;

/// The optional headers that a module has.
#[derive(Clone, Copy)]
pub(crate) struct OptionalImports {
    pub dataclass: bool,
    pub any: bool,
}

/// Reads the rest of a header, after `from`, to the end of the line: `source import imported`.
fn imports<X: AsStr + Drop, I: Iterator<Item = Result<Token<X>, Fault>> + Drop>(
    reader: &mut Reader<X, I>,
    source: &str,
    imported: &str,
) -> Result<(), Fault>
    requires { IsReady I.can_next I.remaining reader.old }
    ensures { ReadsFixed X.AsStr I.Iterator
        (import_words source.now imported.now) reader.old reader.new result }
{
    drop(reader.expect_name(source)?);
    drop(reader.expect(TokenKind::Keyword(Keyword::Import))?);
    drop(reader.expect_name(imported)?);
    drop(reader.expect(TokenKind::Newline)?);
    Ok(())
}

/// Reads the headers of a module.
pub(crate) fn read_headers<X: AsStr + Drop, I: Iterator<Item = Result<Token<X>, Fault>> + Drop>(
    reader: &mut Reader<X, I>,
) -> Result<OptionalImports, Fault>
    requires { IsReady I.can_next I.remaining reader.old }
    ensures { ReadsHeaders X.AsStr I.Iterator reader.old reader.new result }
{
    drop(reader.expect(TokenKind::Keyword(Keyword::From))?);
    imports(reader, "__future__", "annotations")?;
    if !reader.sees(TokenKind::Keyword(Keyword::From)) {
        return Ok(OptionalImports {
            dataclass: false,
            any: false,
        });
    }
    drop(reader.take()?);
    if !reader.sees_name("dataclasses") {
        imports(reader, "typing", "Any")?;
        return Ok(OptionalImports {
            dataclass: false,
            any: true,
        });
    }
    imports(reader, "dataclasses", "dataclass")?;
    if !reader.sees(TokenKind::Keyword(Keyword::From)) {
        return Ok(OptionalImports {
            dataclass: true,
            any: false,
        });
    }
    drop(reader.take()?);
    imports(reader, "typing", "Any")?;
    Ok(OptionalImports {
        dataclass: true,
        any: true,
    })
}
