//! Single tokens: names, and the values of literals.
ghost use Rattle.std.specs.Prelude.{◌≡◌, MatchResult, string_bytes};
ghost use Rattle.pc_source.specs.declared.fault.Fault.TheVariants as fault;
ghost use Rattle.pc_tree.specs.Tree.{name_of};
ghost use Rattle.pc_grammar.specs.Grammar.{digits_of, characters_of, escaped, name_of_token, unclosed, unopened};
ghost use Rattle.pc_reader.specs.Reading.{IsReady, lexeme};
ghost use Rattle.pc_reader.specs.Internal.Expressions.{ReadsName};

use crate::reader::{Reader, form, is_same};
use pc_source::Fault;
use pc_token::{Token, TokenKind};
use pc_tree::{Name, Text};
use std::alloc::Global;
use std::convert::AsStr;

/// Returns the name that a token is.
#[inline(always)]
pub(crate) fn name_of_word<X: AsStr + Drop>(alloc: Global, token: &Token<X>) -> Result<Name, Fault>
    ensures { MatchResult result (λ n. name_of n ≡ name_of_token (lexeme X.text token.now)) (λ e. e ≡ fault.OutOfMemory) }
{
    Ok(Name {
        place: token.place,
        text: Text::of(alloc, form(token))?,
    })
}

/// Returns the digits of a number: its text without underscores.
pub(crate) fn digits(alloc: Global, text: &str) -> Result<String, Fault>
    ensures { MatchResult result (λ d. string_bytes d ≡ digits_of text.now) (λ e. e ≡ fault.OutOfMemory) }
{
    let mut digits = String::new(alloc);
    for character in text.chars() {
        if character != '_' {
            digits.push(character)?;
        }
    }
    Ok(digits)
}

/// Returns the characters of a string: its text without the quotes, with each escape replaced by the character that it
/// means.
pub(crate) fn characters(alloc: Global, text: &str) -> Result<String, Fault>
    ensures { MatchResult result (λ d. string_bytes d ≡ characters_of text.now) (λ e. e ≡ fault.OutOfMemory) }
{
    let mut characters = String::new(alloc);
    let mut escaped = false;
    let inner = without_last_quote(without_first_quote(text));
    for character in inner.chars() {
        if escaped {
            characters.push(unescaped(character))?;
            escaped = false;
        } else if character == '\\' {
            escaped = true;
        } else {
            characters.push(character)?;
        }
    }
    Ok(characters)
}

/// Returns a text without the quote that it begins with, if any.
fn without_first_quote(text: &str) -> &str
    ensures { result.now ≡ unopened text.now }
{
    if let Some(rest) = text.strip_prefix('\'') {
        return rest;
    }
    if let Some(rest) = text.strip_prefix('"') {
        return rest;
    }
    text
}

/// Returns a text without the quote that it ends with, if any.
fn without_last_quote(text: &str) -> &str
    ensures { result.now ≡ unclosed text.now }
{
    if let Some(front) = text.strip_suffix('\'') {
        return front;
    }
    if let Some(front) = text.strip_suffix('"') {
        return front;
    }
    text
}

/// Returns the character that a backslash and this character mean.
fn unescaped(character: char) -> char
    ensures { result ≡ escaped character }
{
    match character {
        'n' => '\n',
        't' => '\t',
        'r' => '\r',
        _ => character,
    }
}

impl<X: AsStr + Drop, I: Iterator<Item = Result<Token<X>, Fault>> + Drop> Reader<X, I> {
    /// Reads a name. If another token is ahead, fails with the fault that `misfit` returns.
    pub fn name(&mut self, alloc: Global) -> Result<Name, Fault>
        requires { IsReady I.can_next I.remaining self.old }
        ensures { ReadsName X.AsStr I.Iterator self.old self.new result }
    {
        let Some(token) = &self.ahead else {
            return Err(self.misfit());
        };
        if !is_same(token.kind, TokenKind::Name) {
            return Err(self.misfit());
        }
        let name = name_of_word(alloc, token)?;
        self.skip()?;
        Ok(name)
    }
}
