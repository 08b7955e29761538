//! The first misfit of the arguments of a call.

ghost use Rattle.std.specs.Prelude.{◌≡◌, ◌++◌, ◌∷◌, [], ◌&&◌, ◌||◌, ℕ, List, IfOk, OnOk, if◌then◌else◌, not};
ghost use Rattle.std.specs.Prelude.{drop, length, map, min, option_map, slice_get, take};
ghost use Rattle.pc_tree.specs.Stopping.{has_none};
ghost use Rattle.pc_rules.specs.Calls.{parameter_names};
ghost use Rattle.pc_scope.specs.Resolution.{is_one_of};
ghost use Rattle.pc_calls.specs.JudgedCalls.{given_with, is_place, names_in};
ghost use Rattle.pc_detail_texts.specs.Mapped.{short_misfit};
ghost use Rattle.pc_detail_texts.specs.Shortened.{shortened};
ghost use Rattle.pc_detail_texts.specs.Shown.{all_words, misfit_of_value};
ghost use Rattle.pc_detail_facts.specs.Callees.{called_of, default_in, name_of_parameter, parameters_called};
ghost use Rattle.pc_detail_rules.specs.Calls.{called_misfit, missing_misfit, named_misfit, unfilled};
ghost use Rattle.pc_type_details.specs.Given.{HasPositions, misfit_of_name, position_held, signed_misfit};
ghost use Rattle.pc_detail_facts.specs.Held.{AreFacts};

use pc_calls::Given;
use pc_detail_facts::{CallTarget, Facts};
use pc_detail_texts::{Counts, Misfit};
use pc_source::OutOfMemory;
use std::collections::BTreeMap;
use std::rc::RcStr;

/// Keeps the position of a name, unless the name has one.
fn keep_position<'c>(
    positions: &mut BTreeMap<&'c str, usize>,
    name: &'c str,
    position: usize,
) -> Result<(), OutOfMemory>
    ensures { OnOk result ((names : List (List ℕ)) → HasPositions names positions.old → position ≡ length names
        → HasPositions (names ++ name.now ∷ []) positions.new) }
{
    if positions.contains_key(&name) {
        return Ok(());
    }
    positions.insert(name, position)?;
    Ok(())
}

/// Returns the first position of each name among the parameters of what is called.
fn positions<'c>(
    facts: &Facts<'c, '_>,
    called: CallTarget<'c>,
) -> Result<BTreeMap<&'c str, usize>, OutOfMemory>
    requires { AreFacts facts.now }
    ensures { IfOk result (HasPositions (parameter_names (parameters_called facts.now called.entry))) }
{
    let mut positions = BTreeMap::new(facts.alloc);
    for position in 0..called.count(facts) {
        keep_position(&mut positions, called.name_at(facts, position), position)?;
    }
    Ok(positions)
}

/// Returns whether a position is that of a name.
fn is_at<'c>(positions: &BTreeMap<&'c str, usize>, name: &'c str, position: usize) -> bool
    ensures { result ≡ is_place (position_held positions.now name.now) position }
{
    match positions.get(&name) {
        Some(first) => *first == position,
        None => false,
    }
}

/// Returns the misfit of an argument by name, unless there is a parameter of the name that no argument by position
/// fills.
fn name_misfit(
    facts: &Facts<'_, '_>,
    positional: usize,
    position: Option<usize>,
    word: &str,
) -> Result<Option<Misfit>, OutOfMemory>
    ensures { IfOk result (λ x. option_map misfit_of_value x
        ≡ option_map short_misfit (misfit_of_name positional position word.now)) }
{
    match position {
        None => Ok(Some(Misfit::NoParameter(facts.words(word)?))),
        Some(position) => {
            if position < positional {
                Ok(Some(Misfit::GivenTwice(facts.words(word)?)))
            } else {
                Ok(None)
            }
        }
    }
}

/// Returns the misfit of the first argument by name that no free parameter takes: there is no such parameter, or it is
/// given by position.
fn named_misfit<'c>(
    facts: &Facts<'c, '_>,
    called: CallTarget<'c>,
    given: &Given<'c>,
    positions: &BTreeMap<&'c str, usize>,
) -> Result<Option<Misfit>, OutOfMemory>
    requires { HasPositions (parameter_names (parameters_called facts.now called)) positions.now }
    ensures { IfOk result (λ x. option_map misfit_of_value x
        ≡ option_map short_misfit (named_misfit given.now.positional (parameters_called facts.now called.entry)
        (names_in given.now.named))) }
{
    for word in given.named.as_slice() {
        let position = positions.get(word).copied();
        let misfit = name_misfit(facts, given.positional, position, *word)?;
        if misfit.is_some() {
            return Ok(misfit);
        }
    }
    Ok(None)
}

/// Returns whether the parameter at a position has neither a default nor an argument by name.
fn is_unfilled<'c>(
    facts: &Facts<'c, '_>,
    called: CallTarget<'c>,
    given: &Given<'c>,
    positions: &BTreeMap<&'c str, usize>,
    position: usize,
) -> bool
    requires { AreFacts facts.now }
    ensures { result
        ≡ not (default_in (slice_get (parameters_called facts.now called.entry) position)
        || (is_one_of (name_of_parameter (slice_get (parameters_called facts.now called.entry) position))
        (names_in given.now.named)
        && is_place (position_held positions.now
        (name_of_parameter (slice_get (parameters_called facts.now called.entry) position))) position)) }
{
    if called.has_default(facts, position) {
        return false;
    }
    let name = called.name_at(facts, position);
    !(given.named.contains(name) && is_at(positions, name, position))
}

/// Adds a name if it is to be kept.
fn add_name_if<'c>(names: &mut Vec<&'c str>, name: &'c str, kept: bool) -> Result<(), OutOfMemory>
    ensures { OnOk result (map (λ w. w.now) names.new.items
        ≡ map (λ w. w.now) names.old.items ++ (if kept then name.now ∷ [] else [])) }
{
    if kept {
        names.push(name)?;
    }
    Ok(())
}

/// Returns the names of the parameters after those that arguments by position fill which have neither a default nor an
/// argument by name.
fn unfilled<'c>(
    facts: &Facts<'c, '_>,
    called: CallTarget<'c>,
    given: &Given<'c>,
    positions: &BTreeMap<&'c str, usize>,
) -> Result<Vec<&'c str>, OutOfMemory>
    requires facts { AreFacts facts.now }
    requires positions { HasPositions (parameter_names (parameters_called facts.now called)) positions.now }
    ensures { IfOk result (λ v. map (λ w. w.now) v.items
        ≡ unfilled (names_in given.now.named)
        (parameter_names (take given.now.positional (parameters_called facts.now called.entry)))
        (drop given.now.positional (parameters_called facts.now called.entry))) }
{
    let mut names = Vec::new(facts.alloc);
    for position in given.positional..called.count(facts) {
        let is_left = is_unfilled(facts, called, given, positions, position);
        add_name_if(&mut names, called.name_at(facts, position), is_left)?;
    }
    Ok(names)
}

/// Returns texts, to be kept in a detail.
fn all_words(facts: &Facts<'_, '_>, texts: &[&str]) -> Result<Vec<RcStr>, OutOfMemory>
    ensures { IfOk result (λ v. all_words v.items ≡ map shortened (map (λ w. w.now) texts.now)) }
{
    let mut kept = Vec::new(facts.alloc);
    for text in texts {
        kept.push(facts.words(*text)?)?;
    }
    Ok(kept)
}

/// The number of missing parameters that are named.
const NAMED: usize = 5;

/// Returns how many of this many missing parameters are named.
fn named_of(missing: usize) -> usize
    ensures { result ≡ min 5 missing }
{
    if missing < NAMED { missing } else { NAMED }
}

/// Returns the misfit of parameters without an argument: the names of the first five and the number of the others, or
/// the counts where arguments are taken by position only.
fn missing_misfit(
    facts: &Facts<'_, '_>,
    takes_names: bool,
    counts: Counts,
    missing: &[&str],
) -> Result<Option<Misfit>, OutOfMemory>
    ensures { IfOk result (λ x. option_map misfit_of_value x
        ≡ option_map short_misfit (missing_misfit takes_names counts.takes counts.given
        (map (λ w. w.now) missing.now))) }
{
    if missing.is_empty() {
        return Ok(None);
    }
    if !takes_names {
        return Ok(Some(Misfit::TooFew(counts)));
    }
    let named = named_of(missing.len());
    let names = all_words(facts, &missing[..named])?;
    Ok(Some(Misfit::Missing(names, missing.len() - named)))
}

/// Returns whether arguments by name are taken, or none is given.
fn may_be_named(takes_names: bool, given: &Given<'_>) -> bool
    ensures { result ≡ takes_names || has_none (names_in given.now.named) }
{
    takes_names || given.named.is_empty()
}

/// Returns the first misfit of arguments and the parameters of what is called, in the order of the rule of a call that
/// suits: too many arguments by position, an argument by name that is not taken, a parameter that is left without an
/// argument.
fn parameter_misfit<'c>(
    facts: &Facts<'c, '_>,
    called: CallTarget<'c>,
    given: &Given<'c>,
) -> Result<Option<Misfit>, OutOfMemory>
    requires { AreFacts facts.now }
    ensures { IfOk result (λ x. option_map misfit_of_value x
        ≡ option_map short_misfit (signed_misfit (given_with given.now) (called_of facts.now called.entry).signature)) }
{
    let counts = Counts {
        takes: called.count(facts),
        given: given.positional,
    };
    if counts.given > counts.takes {
        return Ok(Some(Misfit::TooMany(counts)));
    }
    let takes_names = called.takes_names();
    if !may_be_named(takes_names, given) {
        return Ok(Some(Misfit::ByPositionOnly));
    }
    let positions = positions(facts, called)?;
    let named = named_misfit(facts, called, given, &positions)?;
    if named.is_some() {
        return Ok(named);
    }
    let missing = unfilled(facts, called, given, &positions)?;
    missing_misfit(facts, takes_names, counts, missing.as_slice())
}

/// Returns the first misfit of arguments and what is called; a value cannot be called.
pub(crate) fn misfit<'c>(
    facts: &Facts<'c, '_>,
    called: CallTarget<'c>,
    given: &Given<'c>,
) -> Result<Option<Misfit>, OutOfMemory>
    requires { AreFacts facts.now }
    ensures { IfOk result
        (λ x. option_map misfit_of_value x
        ≡ option_map short_misfit (called_misfit (given_with given.now) (called_of facts.now called.entry))) }
{
    match called {
        CallTarget::Value(_) => Ok(Some(Misfit::NotCallable)),
        _ => parameter_misfit(facts, called, given),
    }
}
