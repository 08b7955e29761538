//! Maps from names to numbers that share their common parts.

ghost use Rattle.std.specs.Prelude.{◌≡◌, ◌↔◌, ◌≤◌, IsTrue, List, ℕ, Some, None, if◌then◌else◌, is_some, bytes_eq, length, IfOk};
ghost use Rattle.std.specs.Prelude.{OnOk};
ghost use Rattle.pc_scope.specs.Resolution.{index_of};
ghost use Rattle.pc_scope.specs.Internal.WalkViews.{texts_in};
ghost use Rattle.pc_shared_maps.specs.NameMaps.{NameMaps, IsMap, named_at, with_text, IsNumbered, KeepsNamed};

use crate::shared::SharedMaps;
use indexmap::IndexSet;
use pc_source::OutOfMemory;
use pc_tree::Keys;
use std::alloc::Global;
use std::cell::Cell;
use std::marker::Model;

/// Distinct names; the number of a name is its place.
pub type NameNumbers = IndexSet<String, Keys>;

/// Returns the number of a name, and adds the name at the end if it is new.
pub fn number(texts: &mut NameNumbers, alloc: Global, name: &str) -> Result<usize, OutOfMemory>
    ensures texts { OnOk result (texts_in texts.new ≡ with_text (texts_in texts.old) name.now) }
    ensures longer { length (texts_in texts.old) ≤ length (texts_in texts.new) }
    ensures number { IfOk result (λ n. index_of name.now (texts_in texts.new) ≡ Some n) }
{
    match texts.get_index_of(name) {
        Some(number) => Ok(number),
        None => {
            let number = texts.len();
            texts.insert(String::from_str(alloc, name)?)?;
            Ok(number)
        }
    }
}

/// Whether two texts are the same. Most names are short, so the bytes are compared one by one.
fn is_same_text(left: &str, right: &str) -> bool
    ensures { IsTrue result ↔ (left.now ≡ right.now) }
{
    let (left, right) = (left.as_bytes(), right.as_bytes());
    if left.len() != right.len() {
        return false;
    }
    for i in 0..left.len() {
        if left[i] != right[i] {
            return false;
        }
    }
    true
}

/// Maps from names to numbers, each built on an earlier one, which is kept. A map is identified by its number; 0 is the
/// empty map.
#[derive(Drop)]
pub struct NamedMaps {
    texts: NameNumbers,
    maps: SharedMaps,
    /// The number of the name that was asked for last.
    last: Cell<usize>,
}

impl Model for NamedMaps {
    ghost Value = { NameMaps };

    ghost view = { λ s. record { texts = texts_in s.texts; nodes = s.maps } };

    ghost invariant = { λ s. IsNumbered (record { texts = texts_in s.texts; nodes = s.maps }) };
}

impl NamedMaps {
    /// Returns the empty map alone.
    pub fn new(alloc: Global, keys: Keys) -> Result<NamedMaps, OutOfMemory>
        ensures room { IfOk result (λ s. IsMap s 0) }
        ensures empty { IfOk result (λ s. (name : List ℕ) → named_at s 0 name ≡ None) }
    {
        let texts = IndexSet::with_hasher(alloc, keys);
        let maps = SharedMaps::new(alloc)?;
        let last = Cell::new(0);
        Ok(NamedMaps { texts, maps, last })
    }

    /// Returns the number of a name, if it has one. One name is mostly looked up several times in turn, so the last one
    /// is tried first, without a hash.
    fn number_of(&self, name: &str) -> Option<usize>
        ensures { result ≡ index_of name.now self.now.texts }
    {
        let last = self.last.get();
        let texts = self.texts.as_slice();
        if last < texts.len() && is_same_text(name, texts[last].as_str()) {
            return Some(last);
        }
        let number = self.texts.get_index_of(name)?;
        self.last.set(number);
        Some(number)
    }

    /// Returns the value of a map at a name.
    pub fn get(&self, map: usize, name: &str) -> Option<usize>
        requires { IsMap self.now map }
        ensures { result ≡ named_at self.now map name.now }
    {
        match self.number_of(name) {
            Some(number) => self.maps.get(map, number),
            None => None,
        }
    }

    /// Returns whether a map has a value at a name.
    pub fn has(&self, map: usize, name: &str) -> bool
        requires { IsMap self.now map }
        ensures { result ≡ is_some (named_at self.now map name.now) }
    {
        self.get(map, name).is_some()
    }

    /// Adds the map that is `map` with `value` at a name. Returns its number.
    pub fn put(
        &mut self,
        alloc: Global,
        map: usize,
        name: &str,
        value: usize,
    ) -> Result<usize, OutOfMemory>
        requires { IsMap self.old map }
        ensures within { IfOk result (λ new. IsMap self.new new) }
        ensures value { IfOk result
            (λ new. (t : List ℕ) → named_at self.new new t
            ≡ (if bytes_eq t name.now then Some value else named_at self.old map t)) }
        ensures kept { OnOk result (KeepsNamed self.old self.new) }
    {
        let number = number(&mut self.texts, alloc, name)?;
        let new = self.maps.put(map, number, value)?;
        Ok(new)
    }
}
