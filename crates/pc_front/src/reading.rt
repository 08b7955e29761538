//! Reading the module of a source text.

ghost use Rattle.std.specs.Prelude.{◌≡◌, length, IfOk, IfErr};
ghost use Rattle.pc_source.specs.Answers.{OnRefusal};
ghost use Rattle.pc_source.specs.Text.{IsText};
ghost use Rattle.pc_source.specs.Within.{IsWithin};
ghost use Rattle.pc_tree.specs.Keys.{keys_of};
ghost use Rattle.pc_tree.specs.Tree.{module_of};
ghost use Rattle.pc_front.specs.Bytes.{IsModuleOf, IsRefusalOf};

use pc_layout::layout_of;
use pc_parse::parse_from;
use pc_source::{Fault, Source, read_source};
use pc_token::lines;
use pc_tree::{Keys, Module};
use std::alloc::Global;

/// Parses a source text. Language Reference 10 "Full Grammar specification".
///
/// # Errors
///
/// The refusal of the first stage that fails, among tokens, layout and grammar, at its lowest byte; `OutOfMemory` if an
/// allocation fails.
pub fn parse_source(alloc: Global, source: &Source) -> Result<Module, Fault>
    requires { IsText source.now }
    ensures read { IfOk result (λ m. IsModuleOf source.now (module_of m)) }
    ensures keyed { IfOk result (λ m. m.keys ≡ keys_of source.now) }
    ensures refused { IfErr result (OnRefusal (IsRefusalOf source.now)) }
    ensures within { IfErr result (IsWithin (length source.now)) }
{
    let keys = Keys::of(source.text().as_bytes());
    parse_from(alloc, keys, layout_of(alloc, source, lines(alloc, source)))
}

/// Parses the bytes of a module. Language Reference 10 "Full Grammar specification".
///
/// # Errors
///
/// The refusal of the first stage that fails, among source, tokens, layout and grammar, at its lowest byte;
/// `OutOfMemory` if an allocation fails.
pub fn read_module(alloc: Global, bytes: &[u8]) -> Result<Module, Fault>
    ensures read { IfOk result (λ m. IsModuleOf bytes.now (module_of m)) }
    ensures keyed { IfOk result (λ m. m.keys ≡ keys_of bytes.now) }
    ensures refused { IfErr result (OnRefusal (IsRefusalOf bytes.now)) }
    ensures within { IfErr result (IsWithin (length bytes.now)) }
{
    let text = read_source(alloc, bytes)?;
    parse_source(alloc, &text)
}
