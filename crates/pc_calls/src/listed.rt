//! Calls that suit a list of parameters, those of a function or method or the fields of a class. The cost is bounded by
//! the arguments of the call, however many parameters there are.

ghost use Rattle.std.specs.Prelude.{◌≡◌, take, drop, slice_get};
ghost use Rattle.std.specs.List.{list_all};
ghost use Rattle.pc_scope.specs.Resolution.{index_of};
ghost use Rattle.pc_types.specs.Tree.{Tree};
ghost use Rattle.pc_class.specs.Listed.{names_listed};
ghost use Rattle.pc_class.specs.Listings.{listed_in};
ghost use Rattle.pc_class.specs.Tables.{parameters_with};
ghost use Rattle.pc_rules.specs.Calls.{is_suited, is_free, are_filled, parameter_names};
ghost use Rattle.pc_calls.specs.JudgedCalls.{names_in, given_with, signature_listed, fills_at};

use crate::arguments::{Given, is_among};
use crate::params::is_free;
use pc_class::Listing;

/// Returns whether an argument by name fills the parameter at this place: it must be the first parameter of that name.
fn takes_name<Ty: Drop>(given: &Given, params: &Listing<'_, Ty>, place: usize) -> bool
    ensures { result ≡ fills_at (names_in given.now.named) (slice_get (listed_in params.now) place) place
        (names_listed (listed_in params.now)) }
{
    let Some(param) = params.at(place) else {
        return false;
    };
    let name = param.name.as_str();
    if !is_among(&given.named, name) {
        return false;
    }
    match params.place(name) {
        Some(first) => first == place,
        None => false,
    }
}

/// Returns whether each parameter that no argument by position fills has a default or an argument by name.
fn are_filled<Ty: Drop>(given: &Given, params: &Listing<'_, Ty>) -> bool
    ensures { (tree : Ty → Tree)
        → result ≡ are_filled (names_in given.now.named)
        (parameter_names (take given.now.positional (parameters_with tree (listed_in params.now))))
        (drop given.now.positional (parameters_with tree (listed_in params.now))) }
{
    let mut end = params.needed(params.len());
    while end > given.positional {
        let place = end - 1;
        if !takes_name(given, params, place) {
            return false;
        }
        end = params.needed(place);
    }
    true
}

/// Returns whether each argument by name is for a parameter that no argument by position fills.
fn are_free<Ty: Drop>(given: &Given, params: &Listing<'_, Ty>) -> bool
    ensures { result ≡ list_all
        (λ word. is_free given.now.positional (index_of word (names_listed (listed_in params.now))))
        (names_in given.now.named) }
{
    let names = given.named.as_slice();
    for i in 0..names.len() {
        if !is_free(given.positional, params.place(names[i])) {
            return false;
        }
    }
    true
}

/// Returns whether a call suits a list of parameters: not too many arguments by position, each by name for a free
/// parameter, and no parameter without an argument or a default. Language Reference 6.3.4 "Calls".
pub fn suits_list<Ty: Drop>(given: &Given, params: &Listing<'_, Ty>) -> bool
    ensures { (tree : Ty → Tree) (returns : Tree)
        → result ≡ is_suited (given_with given.now) (signature_listed tree returns (listed_in params.now)) }
{
    given.positional <= params.len() && (are_free(given, params) && are_filled(given, params))
}
