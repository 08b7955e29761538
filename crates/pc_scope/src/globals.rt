//! The first binding of each name at module level.

ghost use Rattle.std.specs.Prelude.{◌≡◌, ◌∷◌, ◌≤◌, ◌<◌, ◌^◌, map, suc, Option, OnOk, IfOk, List, ℕ};
ghost use Rattle.pc_tree.specs.Tree.{item_of, Item as StatedItem};
ghost use Rattle.pc_scope.specs.Resolution.{bound_first};
ghost use Rattle.pc_tree.specs.Names.{first_of, bound_as};
ghost use Rattle.pc_scope.specs.Internal.WalkViews.{at_text};

use crate::resolution::NameMeaning;
use indexmap::IndexMap;
use pc_source::OutOfMemory;
use pc_tree::{Item, ItemKind, Keys};
use std::alloc::Global;

/// The first binding of each name at module level.
pub type GlobalMeanings = IndexMap<String, NameMeaning, Keys>;

/// Binds a name to a meaning, unless the name is bound already.
fn bind_first(
    globals: &mut GlobalMeanings,
    alloc: Global,
    name: &str,
    meaning: NameMeaning,
) -> Result<(), OutOfMemory>
    ensures { OnOk result ((text : List ℕ)
        → at_text globals.new text ≡ first_of (at_text globals.old text) (bound_as name.now meaning text)) }
{
    if globals.contains_key(name) {
        return Ok(());
    }
    globals.insert(String::from_str(alloc, name)?, meaning)?;
    Ok(())
}

/// How many constants, functions and classes are bound so far.
#[derive(Clone, Copy)]
struct Bound {
    constants: usize,
    functions: usize,
    classes: usize,
}

/// Returns the name that an item binds, with its meaning, and counts the item.
fn bind<'a>(bound: &mut Bound, item: &'a Item) -> (&'a str, NameMeaning)
    requires constants { bound.old.constants < 2 ^ 62 }
    requires functions { bound.old.functions < 2 ^ 62 }
    requires classes { bound.old.classes < 2 ^ 62 }
    ensures constants { bound.new.constants ≤ suc bound.old.constants }
    ensures functions { bound.new.functions ≤ suc bound.old.functions }
    ensures classes { bound.new.classes ≤ suc bound.old.classes }
    ensures binds { (rest : List StatedItem) (text : List ℕ)
        → bound_first bound.old.constants bound.old.functions bound.old.classes (item_of item.now ∷ rest) text
        ≡ first_of (bound_as result.0.now result.1 text)
        (bound_first bound.new.constants bound.new.functions bound.new.classes rest text) }
{
    match &item.kind {
        ItemKind::Constant(constant) => {
            let meaning = NameMeaning::Const(bound.constants);
            bound.constants += 1;
            (constant.name.text.as_str(), meaning)
        }
        ItemKind::Class(class) => {
            let meaning = NameMeaning::Class(bound.classes);
            bound.classes += 1;
            (class.name.text.as_str(), meaning)
        }
        ItemKind::Def(def) => {
            let meaning = NameMeaning::Func(bound.functions);
            bound.functions += 1;
            (def.name.text.as_str(), meaning)
        }
    }
}

/// Returns the first binding of each name that items bind. Constants, functions and classes are numbered in text order.
pub fn globals(alloc: Global, keys: Keys, items: &[Item]) -> Result<GlobalMeanings, OutOfMemory>
    ensures { IfOk result (λ g. (text : List ℕ) → at_text g text ≡ bound_first 0 0 0 (map item_of items.now) text) }
{
    let mut globals = IndexMap::with_hasher(alloc, keys);
    let mut bound = Bound {
        constants: 0,
        functions: 0,
        classes: 0,
    };
    for item in items {
        let (name, meaning) = bind(&mut bound, item);
        bind_first(&mut globals, alloc, name, meaning)?;
    }
    Ok(globals)
}
