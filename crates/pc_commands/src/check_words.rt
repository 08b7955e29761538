//! The words of the command line of `pycheck`.
ghost use Rattle.std.specs.Prelude.{◌≡◌, IfOk, IfErr, Some, None, true, false, map, option_map, string_bytes};
ghost use Rattle.clap.specs.Words.{app_of, rule_of};
ghost use Rattle.pc_commands.specs.Faults.{OnFault};
ghost use Rattle.pc_commands.specs.CheckWords.{are_plain, asked, asks_for_help, command_line, file_rule, format_in};
ghost use Rattle.pc_commands.specs.CheckWords.{format_asked, format_rule, is_mistaken, json_rule, plainly_asked};
ghost use Rattle.pc_commands.specs.CheckWords.{details_rule, types_rule};

use crate::faults::{OptionFault, fault_of};
use clap::{Arg, ArgAction, Command};
use pc_report::Format;
use std::alloc::{AllocError, Global};

/// Request of a command line: the file to check, whether the output is JSON, whether it is the listing of types or the
/// report with details, and the format of the report.
#[derive(Debug, PartialEq, Eq, Drop)]
pub struct CheckOptions {
    pub json: bool,
    pub types: bool,
    pub details: bool,
    pub format: Format,
    pub file: String,
}

/// Returns the format that a word names, or `None` if it is neither `1` nor `2`.
fn format_of(word: &str) -> Option<Format>
    ensures { result ≡ format_in word.now }
{
    match word {
        "1" => Some(Format::One),
        "2" => Some(Format::Two),
        _ => None,
    }
}

/// Returns the format that is asked for: two without a word, else the one that it names. Of `--types`, `--details` and a
/// word at most one is given.
fn format_asked(types: bool, details: bool, word: Option<&str>) -> Option<Format>
    ensures { result ≡ format_asked types details (option_map (λ w. w.now) word.entry) }
{
    match word {
        None if types && details => None,
        None => Some(Format::Two),
        Some(_) if types || details => None,
        Some(word) => format_of(word),
    }
}

/// Returns the flag `--json`.
fn json_argument<'a>(alloc: Global) -> Arg<'a>
    ensures rule { rule_of result ≡ json_rule }
    ensures local { result.global ≡ false }
{
    Arg::new(alloc, "json")
        .long("json")
        .action(ArgAction::SetTrue)
        .help("Write the report as JSON")
}

/// Returns the flag `--types`.
fn types_argument<'a>(alloc: Global) -> Arg<'a>
    ensures rule { rule_of result ≡ types_rule }
    ensures local { result.global ≡ false }
{
    Arg::new(alloc, "types")
        .long("types")
        .action(ArgAction::SetTrue)
        .help("List the types of expressions and of bound names, without a report")
}

/// Returns the flag `--details`.
fn details_argument<'a>(alloc: Global) -> Arg<'a>
    ensures rule { rule_of result ≡ details_rule }
    ensures local { result.global ≡ false }
{
    Arg::new(alloc, "details")
        .long("details")
        .action(ArgAction::SetTrue)
        .help("Say in the report what is wrong at each finding")
}

/// Returns the option `--format N`.
fn format_argument<'a>(alloc: Global) -> Arg<'a>
    ensures rule { rule_of result ≡ format_rule }
    ensures local { result.global ≡ false }
{
    Arg::new(alloc, "format")
        .long("format")
        .value_name("N")
        .action(ArgAction::Set)
        .help("The report's format: 1, or 2 with the types of each dynamic flow [default: 2]")
}

/// Returns the argument that names the file.
fn file_argument<'a>(alloc: Global) -> Arg<'a>
    ensures rule { rule_of result ≡ file_rule }
    ensures local { result.global ≡ false }
{
    Arg::new(alloc, "file")
        .value_name("FILE")
        .required(true)
        .action(ArgAction::Set)
        .help("The module to check")
}

/// Returns the command line of the program, for `clap`.
fn command<'a>(alloc: Global) -> Result<Command<'a>, AllocError>
    ensures { IfOk result (λ c. app_of c ≡ command_line) }
{
    Command::new(alloc, "pycheck")
        .version("1.0.0")
        .about("Checks the types of a module of the profile, and prints the report")
        .no_binary_name(true)
        .arg(json_argument(alloc))?
        .arg(types_argument(alloc))?
        .arg(details_argument(alloc))?
        .arg(format_argument(alloc))?
        .arg(file_argument(alloc))
}

/// Message for `--types` beside `--format`.
const TYPES_WITH_FORMAT: &str =
    "error: the argument '--types' cannot be used with '--format <N>'\n\nFor more information, try '--help'.\n";

/// Message for `--details` beside `--format`.
const DETAILS_WITH_FORMAT: &str =
    "error: the argument '--details' cannot be used with '--format <N>'\n\nFor more information, try '--help'.\n";

/// Message for `--types` beside `--details`.
const TYPES_WITH_DETAILS: &str =
    "error: the argument '--types' cannot be used with '--details'\n\nFor more information, try '--help'.\n";

/// Returns the fault for a value of `--format` that names no format, or for two of `--types`, `--details` and `--format`.
fn format_fault(alloc: Global, types: bool, details: bool, word: Option<&str>) -> OptionFault
    ensures { OnFault (Unit {0}) ⊥ result }
{
    let word = word.unwrap_or("");
    let text = if types && details {
        String::from_str(alloc, TYPES_WITH_DETAILS)
    } else if types {
        String::from_str(alloc, TYPES_WITH_FORMAT)
    } else if details {
        String::from_str(alloc, DETAILS_WITH_FORMAT)
    } else {
        format!(in alloc;
            "error: invalid value '{word}' for '--format <N>'\n  [possible values: 1, 2]\n\nFor more information, try '--help'.\n"
        )
    };
    match text {
        Ok(text) => OptionFault::Usage(text),
        Err(_) => OptionFault::OutOfMemory,
    }
}

/// Reads the words of the command line, which must be a file and optionally `--json`, and `--types`, `--details` or
/// `--format N`, as `clap` reads them, with N `1` or `2`. Without `--format N` the format is two. Own rule of the profile.
///
/// # Errors
///
/// `Usage` for any other words; `Help` if they ask for help or the version; `OutOfMemory` only if an allocation failed.
pub fn check_options(alloc: Global, words: &[&str]) -> Result<CheckOptions, OptionFault>
    ensures read { IfOk result
        (λ o. asked (map (λ w. w.now) words.now)
        ≡ Some (record {
          json = o.json;
          types = o.types;
          details = o.details;
          format = o.format;
          file = string_bytes o.file;
        })) }
    ensures plain { are_plain (map (λ w. w.now) words.now) ≡ true
        → asked (map (λ w. w.now) words.now) ≡ plainly_asked (map (λ w. w.now) words.now) }
    ensures none { IfErr result
        (OnFault (asked (map (λ w. w.now) words.now) ≡ None) (asked (map (λ w. w.now) words.now) ≡ None)) }
    ensures which { IfErr result
        (OnFault (is_mistaken (map (λ w. w.now) words.now) ≡ true)
        (asks_for_help (map (λ w. w.now) words.now) ≡ true)) }
{
    let matches = match command(alloc)?.try_get_matches_from(words) {
        Ok(matches) => matches,
        Err(error) => return Err(fault_of(alloc, &error)),
    };
    let types = matches.get_str("types").unwrap_or("") == "true";
    let details = matches.get_str("details").unwrap_or("") == "true";
    let number = matches.get_str("format");
    // Tested here, since `clap` would keep a list of possible values, and of arguments that exclude one another, in
    // memory that no contract describes.
    let Some(format) = format_asked(types, details, number) else {
        return Err(format_fault(alloc, types, details, number));
    };
    let json = matches.get_str("json").unwrap_or("") == "true";
    let file = String::from_str(alloc, matches.get_str("file").unwrap_or(""))?;
    Ok(CheckOptions {
        json,
        types,
        details,
        format,
        file,
    })
}
