//! The words of the command line of `pyrun`.
ghost use Rattle.std.specs.Prelude.{◌≡◌, IfOk, IfErr, Some, None, true, false, codes, map, option_and_then};
ghost use Rattle.std.specs.Prelude.{string_bytes};
ghost use Rattle.std.specs.Str.{all_ascii_digits};
ghost use Rattle.clap.specs.Words.{app_of, first_value, found_of, rule_of};
ghost use Rattle.pc_commands.specs.Faults.{OnFault};
ghost use Rattle.pc_commands.specs.CheckWords.{file_rule};
ghost use Rattle.pc_commands.specs.RunWords.{are_plain, asked, asks_for_help, choices_rule, command_line};
ghost use Rattle.pc_commands.specs.RunWords.{fuel_in, fuel_rule, is_mistaken, plainly_asked};

use crate::faults::{OptionFault, fault_of};
use clap::{Arg, ArgAction, ArgMatches, Command};
use std::alloc::{AllocError, Global};

/// Request of a command line: the file to run, the amount of fuel, and the word whose bytes are the choices, which is
/// empty if there is none.
#[derive(Debug, PartialEq, Eq, Drop)]
pub struct RunOptions {
    pub fuel: u64,
    pub choices: String,
    pub file: String,
}

/// Returns whether a word has only digits.
fn has_digits_alone(word: &[u8]) -> bool
    ensures { result ≡ all_ascii_digits word.now }
{
    for byte in word {
        if !byte.is_ascii_digit() {
            return false;
        }
    }
    true
}

/// Returns the fuel that a word gives, or `None` if it is not a decimal number of digits only that fits 64 bits.
#[tactic(auto, using(crate::proofs::Fuel::read_fuel))]
fn fuel_of(word: &str) -> Option<u64>
    ensures { result ≡ fuel_in word.now }
{
    // `parse` accepts a sign `+`, which no fuel has.
    if !has_digits_alone(word.as_bytes()) {
        return None;
    }
    match word.parse() {
        Ok(fuel) => Some(fuel),
        Err(_) => None,
    }
}

/// Returns the option `--fuel N`.
fn fuel_argument<'a>(alloc: Global) -> Arg<'a>
    ensures rule { rule_of result ≡ fuel_rule }
    ensures local { result.global ≡ false }
{
    Arg::new(alloc, "fuel")
        .long("fuel")
        .value_name("N")
        .required(true)
        .action(ArgAction::Set)
        .help("How many steps the run may take, from 0 to 18446744073709551615")
}

/// Returns the option `--choices WORD`.
fn choices_argument<'a>(alloc: Global) -> Arg<'a>
    ensures rule { rule_of result ≡ choices_rule }
    ensures local { result.global ≡ false }
{
    Arg::new(alloc, "choices")
        .long("choices")
        .value_name("WORD")
        .action(ArgAction::Set)
        .help(
            "Choice bytes for the free answers of the run, such as the digits 0 to 3 [default: none]",
        )
}

/// Returns the argument that names the file.
fn file_argument<'a>(alloc: Global) -> Arg<'a>
    ensures rule { rule_of result ≡ file_rule }
    ensures local { result.global ≡ false }
{
    Arg::new(alloc, "file")
        .value_name("FILE")
        .required(true)
        .action(ArgAction::Set)
        .help("The module to run")
}

/// Returns the command line of the program, for `clap`.
fn command<'a>(alloc: Global) -> Result<Command<'a>, AllocError>
    ensures { IfOk result (λ c. app_of c ≡ command_line) }
{
    Command::new(alloc, "pyrun")
        .version("1.0.0")
        .about("Runs a module of the profile in the model, and prints its trace")
        .no_binary_name(true)
        .arg(fuel_argument(alloc))?
        .arg(choices_argument(alloc))?
        .arg(file_argument(alloc))
}

/// Message for a value of `--fuel` that is no number.
const NO_NUMBER: &str =
    "error: invalid value for '--fuel <N>': not a whole number from 0 to 18446744073709551615\n\nFor more information, try '--help'.\n";

/// Returns the fault for a value of `--fuel` that is no number.
fn number_fault(alloc: Global) -> OptionFault
    ensures { OnFault (Unit {0}) ⊥ result }
{
    match String::from_str(alloc, NO_NUMBER) {
        Ok(text) => OptionFault::Usage(text),
        Err(_) => OptionFault::OutOfMemory,
    }
}

/// Returns the fuel that the words give, or `None` if its value is no number.
fn fuel_given(matches: &ArgMatches) -> Option<u64>
    ensures { result ≡ option_and_then fuel_in (first_value (found_of matches.now) (codes "fuel")) }
{
    fuel_of(matches.get_str("fuel")?)
}

/// Reads the words of the command line, which must be `--fuel N`, a file and optionally `--choices WORD`, as `clap` reads
/// them, with N a whole number in decimal from 0 to 18446744073709551615. Without `--choices WORD` the word is empty. Own
/// rule of the profile.
///
/// # Errors
///
/// `Usage` for any other words; `Help` if they ask for help or the version; `OutOfMemory` only if an allocation failed.
pub fn run_options(alloc: Global, words: &[&str]) -> Result<RunOptions, OptionFault>
    ensures read { IfOk result
        (λ o. asked (map (λ w. w.now) words.now)
        ≡ Some (record { fuel = o.fuel; choices = string_bytes o.choices; file = string_bytes o.file })) }
    ensures plain { are_plain (map (λ w. w.now) words.now) ≡ true
        → asked (map (λ w. w.now) words.now) ≡ plainly_asked (map (λ w. w.now) words.now) }
    ensures none { IfErr result
        (OnFault (asked (map (λ w. w.now) words.now) ≡ None) (asked (map (λ w. w.now) words.now) ≡ None)) }
    ensures which { IfErr result
        (OnFault (is_mistaken (map (λ w. w.now) words.now) ≡ true)
        (asks_for_help (map (λ w. w.now) words.now) ≡ true)) }
{
    let matches = match command(alloc)?.try_get_matches_from(words) {
        Ok(matches) => matches,
        Err(error) => return Err(fault_of(alloc, &error)),
    };
    let (Some(fuel), Some(file)) = (fuel_given(&matches), matches.get_str("file")) else {
        return Err(number_fault(alloc));
    };
    let choices = String::from_str(alloc, matches.get_str("choices").unwrap_or(""))?;
    let file = String::from_str(alloc, file)?;
    Ok(RunOptions {
        fuel,
        choices,
        file,
    })
}
