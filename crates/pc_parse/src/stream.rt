//! Parsing a stream of tokens.
ghost use Rattle.std.specs.Prelude.{◌≡◌, ◌⊎◌, ℕ, map, IfOk, IfErr};
ghost use Rattle.std.specs.Iterator.{IsFinite};
ghost use Rattle.pc_source.specs.declared.fault.Fault.TheVariants as fault;
ghost use Rattle.pc_source.specs.Answers.{OnRefusal};
ghost use Rattle.pc_source.specs.Stream.{ComesAs, RefusesWithin};
ghost use Rattle.pc_source.specs.Within.{IsWithin};
ghost use Rattle.pc_token.specs.Within.{AreWithin};
ghost use Rattle.pc_tree.specs.Tree.{module_of};
ghost use Rattle.pc_reader.specs.Reading.{lexeme};
ghost use Rattle.pc_parse.specs.Answering.{IsRead, IsRefusedByTokens, IsFaulty};

use crate::parser::Parser;
use pc_reader::Reader;
use pc_source::{Fault, Refusal, RefusalCode};
use pc_token::Token;
use pc_tree::{Keys, Module};
use std::alloc::Global;
use std::convert::AsStr;

/// Parses tokens that come one at a time, from any finite iterator, into a module with these hash keys. Python Language
/// Reference 3.12, 10 "Full Grammar specification", the part in the profile.
///
/// # Errors
///
/// A fault among the tokens. Otherwise `G1` at the first token after which no module can follow, or at the end of the
/// last token if they end too early; otherwise `G2` at the first byte of the first whole expression or annotation that
/// is deeper than 64. `OutOfMemory` if the tree cannot be allocated.
pub fn parse_from<X: AsStr + Drop, I: Iterator<Item = Result<Token<X>, Fault>> + Drop>(
    alloc: Global,
    keys: Keys,
    tokens: I,
) -> Result<Module, Fault>
    requires can { I.can_next tokens }
    requires ends { IsFinite (I.remaining tokens) }
    ensures keyed { IfOk result (λ m. m.keys ≡ keys) }
    ensures read { IfOk result (λ m. IsRead X.text I.next_gives tokens (module_of m)) }
    ensures refused { IfErr result
        (OnRefusal (λ r. IsRefusedByTokens X.text I.next_gives tokens r
        ⊎ IsFaulty X.text I.next_gives tokens (fault.Refused r))) }
    ensures within { (len : ℕ) → RefusesWithin I.next_gives len tokens
        → ComesAs I.next_gives (λ ts. AreWithin len (map (lexeme X.text) ts)) tokens
        → IfErr result (IsWithin len) }
{
    let reader = Reader::new(tokens)?;
    let mut parser = Parser::new(reader);
    let module = parser.module(alloc, keys)?;
    match parser.deep {
        Some(byte) => Err(Fault::Refused(Refusal {
            code: RefusalCode::G2,
            byte,
        })),
        None => Ok(module),
    }
}
