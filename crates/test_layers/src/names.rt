//! The meaning of names in a module, by `pc_scope`; sets and maps of names, by `pc_tree`.
use indexmap::{IndexMap, IndexSet};
use pc_front::read_module;
use pc_scope::{Owner, scopes};
use pc_source::{Fault, is_reserved};
use pc_tree::{Keys, Module, Text, bind_first, put, put_last};
use std::alloc::{AllocError, Global};
use std::hash::BuildHasher;

/// Returns the owner whose names are looked up, as a row writes it: `Module`, `Func 0` or `Method 0 1`.
fn owner_of(words: &[&str]) -> Option<Owner> {
    match words.get(0).copied()? {
        "Module" => Some(Owner::Module),
        "Func" => Some(Owner::Func(words.get(1).copied()?.parse().ok()?)),
        "Method" => {
            let class = words.get(1).copied()?.parse().ok()?;
            Some(Owner::Method(class, words.get(2).copied()?.parse().ok()?))
        }
        _ => None,
    }
}

/// Returns the meaning of a name to an owner in a module, and the owner's number of locals.
fn meaning_in(alloc: Global, module: &Module, owner: Owner, name: &str) -> Result<String, Fault> {
    let names = scopes(alloc, module)?;
    let (meaning, locals) = (names.resolve(owner, name), names.count_locals(owner));
    Ok(format!(in alloc; "{meaning:?} of {locals}")?)
}

/// Returns the meaning of a row's last word, a name, to the owner in its first words, in a module, and the owner's
/// number of locals.
pub fn meaning_text(alloc: Global, module: &str, row: &str) -> Result<String, Fault> {
    let (owner, name) = row.split_once(" ; ").unwrap_or(("", ""));
    let words: Vec<&str> = owner.split(' ').collect(alloc)?;
    let Some(owner) = owner_of(words.as_slice()) else {
        return Ok(String::from_str(alloc, "no owner")?);
    };
    let module = read_module(alloc, module.as_bytes())?;
    meaning_in(alloc, &module, owner, name)
}

/// Returns the entry of each word in a map that binds it to the number of its first occurrence.
fn bound(alloc: Global, words: &str) -> Result<String, Fault> {
    let mut map = IndexMap::with_hasher(alloc, Keys::of(words.as_bytes()));
    for (number, word) in words.split(' ').enumerate() {
        bind_first(&mut map, word, number)?;
    }
    let mut text = String::new(alloc);
    for word in words.split(' ') {
        write!(text, "{:?} ", map.get(word))?;
    }
    Ok(text)
}

/// Returns whether each word was in the set of the words before it.
fn repeated(alloc: Global, words: &str) -> Result<String, Fault> {
    let mut set = IndexSet::with_hasher(alloc, Keys::of(words.as_bytes()));
    let mut text = String::new(alloc);
    for word in words.split(' ') {
        let stands_before = put(&mut set, word)?;
        write!(text, "{stands_before} ")?;
    }
    Ok(text)
}

/// Returns each word as the text of a name from a list, and whether it is stored in the name itself.
fn listed(alloc: Global, words: &str) -> Result<String, Fault> {
    let mut names = Vec::new(alloc);
    for word in words.split(' ') {
        put_last(&mut names, Text::of(alloc, word)?)?;
    }
    let mut text = String::new(alloc);
    for name in &names {
        let is_short = matches!(name, Text::Short(_));
        write!(text, "{} {is_short}; ", name.as_str())?;
    }
    Ok(text)
}

/// Returns whether each word is reserved.
fn reserved(alloc: Global, words: &str) -> Result<String, AllocError> {
    let mut text = String::new(alloc);
    for word in words.split(' ') {
        let is_reserved = is_reserved(word);
        write!(text, "{is_reserved} ")?;
    }
    Ok(text)
}

/// Returns whether a name has the same hash with the keys of each word as with those of the word before it.
fn keyed(alloc: Global, words: &str) -> Result<String, AllocError> {
    let mut before = None;
    let mut text = String::new(alloc);
    for word in words.split(' ') {
        let hash = Keys::of(word.as_bytes()).hash_one("name");
        if let Some(other) = before {
            let is_same = hash == other;
            write!(text, "{is_same} ")?;
        }
        before = Some(hash);
    }
    Ok(text)
}

/// Returns the answer to words in a part of this name.
pub fn words_text(alloc: Global, part: &str, words: &str) -> Result<String, Fault> {
    match part {
        "BOUND" => bound(alloc, words),
        "REPEATED" => repeated(alloc, words),
        "LISTED" => listed(alloc, words),
        "KEYED" => Ok(keyed(alloc, words)?),
        _ => Ok(reserved(alloc, words)?),
    }
}
