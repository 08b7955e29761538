//! Maps by name.
ghost use Rattle.std.specs.Prelude.{◌≡◌, OnOk, OnErr, List, ℕ};
ghost use Rattle.pc_tree.specs.Names.{at_text, first_of, bound_as};

use crate::Keys;
use indexmap::IndexMap;
use pc_source::OutOfMemory;

/// A value for each name, in the order in which the names were bound.
pub type NameMap<'m, V> = IndexMap<&'m str, V, Keys>;

/// Binds `name` to `value`, unless it is bound already.
///
/// # Errors
///
/// `OutOfMemory` if the map cannot grow; it stays as it was.
pub fn bind_first<'m, V: Drop>(
    map: &mut NameMap<'m, V>,
    name: &'m str,
    value: V,
) -> Result<(), OutOfMemory>
    ensures bound { OnOk result
        ((text : List ℕ) → at_text map.new text ≡ first_of (at_text map.old text) (bound_as name.now value text)) }
    ensures kept { OnErr result ((text : List ℕ) → at_text map.new text ≡ at_text map.old text) }
{
    if map.contains_key(name) {
        return Ok(());
    }
    map.insert(name, value)?;
    Ok(())
}
