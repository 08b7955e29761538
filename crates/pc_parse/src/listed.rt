//! Parsing a list of tokens.
ghost use Rattle.std.specs.Prelude.{◌≡◌, ℕ, map, MatchResult, IfOk, IfErr};
ghost use Rattle.std.specs.Iterator.{at_most};
ghost use Rattle.pc_source.specs.declared.fault.Fault.TheVariants as fault;
ghost use Rattle.pc_source.specs.Answers.{OnRefusal};
ghost use Rattle.pc_source.specs.Within.{IsWithin};
ghost use Rattle.pc_token.specs.Lexeme.{lexeme_of};
ghost use Rattle.pc_token.specs.Within.{AreWithin};
ghost use Rattle.pc_tree.specs.Tree.{Module as ModuleTree, module_of};
ghost use Rattle.pc_grammar.specs.Faults.{IsModule, IsRefusal};

use crate::stream::parse_from;
use pc_source::Fault;
use pc_token::TextToken;
use pc_tree::{Keys, Module};
use std::alloc::Global;

/// The remaining tokens of a list, copied one at a time.
#[derive(Drop)]
struct Listed<'t, 'a> {
    tokens: &'t [TextToken<'a>],
    at: usize,
}

/// Copies a token.
fn copied<'a>(token: &TextToken<'a>) -> Result<TextToken<'a>, Fault>
    ensures { MatchResult result (λ t. lexeme_of t ≡ lexeme_of token.now) (λ e. e ≡ fault.OutOfMemory) }
{
    let token = token.clone()?;
    Ok(token)
}

impl<'t, 'a> Iterator for Listed<'t, 'a> {
    type Item = Result<TextToken<'a>, Fault>;

    ghost use Rattle.std.specs.Prelude.{◌-◌, length};
    ghost use Rattle.pc_parse.specs.Internal.ListedTokens.{gives_token};

    ghost next_gives = { gives_token };

    ghost remaining = { λ s. at_most (length s.tokens.now - s.at) };

    fn size_hint(&self) -> (usize, Option<usize>) {
        (0, None)
    }

    fn next(&mut self) -> Option<Result<TextToken<'a>, Fault>> {
        if self.at >= self.tokens.len() {
            return None;
        }
        let token = copied(&self.tokens[self.at]);
        self.at += 1;
        Some(token)
    }
}

/// Parses a list of tokens into a module with these hash keys; for tests, since a check parses tokens as they come, by
/// `parse_from`. Python Language Reference 3.12, 10 "Full Grammar specification", the part in the profile.
///
/// # Errors
///
/// `G1` at the first token after which no module can follow, or at the end of the last token if they end too early;
/// otherwise `G2` at the first byte of the first whole expression or annotation that is deeper than 64. `OutOfMemory`
/// if the tree cannot be allocated.
pub fn parse(alloc: Global, keys: Keys, tokens: &[TextToken<'_>]) -> Result<Module, Fault>
    ensures keyed { IfOk result (λ m. m.keys ≡ keys) }
    ensures found { IfOk result (λ m. IsModule (map lexeme_of tokens.now) (module_of m)) }
    ensures only { (m : ModuleTree) → IsModule (map lexeme_of tokens.now) m
        → MatchResult result (λ v. module_of v ≡ m) (λ e. e ≡ fault.OutOfMemory) }
    ensures refused { IfErr result (OnRefusal (IsRefusal (map lexeme_of tokens.now))) }
    ensures within { (len : ℕ) → AreWithin len (map lexeme_of tokens.now) → IfErr result (IsWithin len) }
{
    parse_from(alloc, keys, Listed { tokens, at: 0 })
}
