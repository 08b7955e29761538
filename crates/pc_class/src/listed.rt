//! Lists of parameters, with fast lookup by name and of the end of the required ones.

ghost use Rattle.std.specs.Prelude.{◌≡◌, ◌≤◌, List, length, IfOk, OnOk};
ghost use Rattle.pc_scope.specs.Resolution.{index_of};
ghost use Rattle.pc_class.specs.declared.table.Parameter.{Parameter as ParameterOf};
ghost use Rattle.pc_class.specs.Listed.{needed_in, names_listed, ArePlaces, AreNeeded, IsIndexIfAny};

use crate::table::Parameter;
use indexmap::IndexMap;
use pc_source::OutOfMemory;
use pc_tree::Keys;
use std::alloc::Global;
use std::marker::Model;

/// The place of the first parameter of each name.
type Places = IndexMap<String, usize, Keys>;

/// The index of a long list: the first place of each name, and for each count n the end of the required parameters
/// among the first n.
#[derive(Drop)]
struct Index {
    places: Places,
    needed: Vec<usize>,
}

/// Most parameters of a list that is searched without an index.
const SHORT: usize = 8;

/// A list of parameters. Contracts see it as that list.
#[derive(Drop)]
pub struct ParameterList<Ty: Drop> {
    all: Vec<Parameter<Ty>>,
    index: Option<Index>,
}

impl<Ty: Drop> Model for ParameterList<Ty> {
    ghost Value = { List (ParameterOf Ty) };

    ghost view = { λ s. s.all.items };

    ghost invariant = { λ s. IsIndexIfAny s.all.items s.index };
}

/// Returns the position of the first parameter with a name, by searching the list; `None` if there is no such
/// parameter.
fn place_among<Ty: Drop>(params: &[Parameter<Ty>], name: &str) -> Option<usize>
    ensures { result ≡ index_of name.now (names_listed params.now) }
{
    for i in 0..params.len() {
        if name == params[i].name.as_str() {
            return Some(i);
        }
    }
    None
}

/// Returns how many of the first `count` parameters there are up to the last one without a default, 0 if all have one.
/// Searches the list.
fn needed_among<Ty: Drop>(params: &[Parameter<Ty>], count: usize) -> usize
    requires { count ≤ length params.now }
    ensures { result ≡ needed_in params.now count }
{
    let mut end = count;
    while end > 0 {
        if !params[end - 1].has_default {
            return end;
        }
        end -= 1;
    }
    0
}

/// Returns the position of the first parameter with each name.
fn places_of<Ty: Drop>(
    alloc: Global,
    keys: Keys,
    params: &[Parameter<Ty>],
) -> Result<Places, OutOfMemory>
    ensures { IfOk result (λ m. ArePlaces m (names_listed params.now)) }
{
    let mut places = IndexMap::with_hasher(alloc, keys);
    for i in 0..params.len() {
        let name = params[i].name.as_str();
        if !places.contains_key(name) {
            places.insert(String::from_str(alloc, name)?, i)?;
        }
    }
    Ok(places)
}

/// Returns for each count n, from 0, how many of the first n parameters there are up to the last one without a default.
fn needed_of<Ty: Drop>(alloc: Global, params: &[Parameter<Ty>]) -> Result<Vec<usize>, OutOfMemory>
    ensures { IfOk result (λ ns. AreNeeded ns.items params.now) }
{
    let mut needed = Vec::new(alloc);
    let mut last = 0;
    needed.push(last)?;
    for i in 0..params.len() {
        if !params[i].has_default {
            last = i + 1;
        }
        needed.push(last)?;
    }
    Ok(needed)
}

impl<Ty: Drop> ParameterList<Ty> {
    /// Returns the list of these parameters.
    pub fn new(
        alloc: Global,
        keys: Keys,
        all: Vec<Parameter<Ty>>,
    ) -> Result<ParameterList<Ty>, OutOfMemory>
        ensures { IfOk result (λ ps. ps ≡ all.items) }
    {
        if all.len() <= SHORT {
            return Ok(ParameterList { all, index: None });
        }
        let places = places_of(alloc, keys, &all)?;
        let needed = needed_of(alloc, &all)?;
        let index = Some(Index { places, needed });
        Ok(ParameterList { all, index })
    }

    /// Returns the parameters.
    pub fn as_slice(&self) -> &[Parameter<Ty>]
        ensures { result.now ≡ self.now }
    {
        &self.all
    }

    /// Returns the position of the first parameter with a name; `None` if there is no such parameter.
    pub fn place(&self, name: &str) -> Option<usize>
        ensures { result ≡ index_of name.now (names_listed self.now) }
    {
        match &self.index {
            Some(index) => index.places.get(name).copied(),
            None => place_among(&self.all, name),
        }
    }

    /// Returns how many of the first `count` parameters there are up to the last one without a default, 0 if all have
    /// one.
    pub fn needed(&self, count: usize) -> usize
        requires { count ≤ length self.now }
        ensures { result ≡ needed_in self.now count }
    {
        match &self.index {
            Some(index) => index.needed[count],
            None => needed_among(&self.all, count),
        }
    }
}
