//! Sets of names.
ghost use Rattle.std.specs.Prelude.{◌≡◌, ◌∷◌, IfOk, OnOk, List, ℕ};
ghost use Rattle.pc_tree.specs.Stopping.{is_among};
ghost use Rattle.pc_tree.specs.Names.{texts_in};

use crate::Keys;
use indexmap::IndexSet;
use pc_source::OutOfMemory;

/// Distinct names, in the order in which they were added.
pub type NameSet<'m> = IndexSet<&'m str, Keys>;

/// Adds a name and returns whether it was there already.
///
/// # Errors
///
/// `OutOfMemory` if the set cannot grow.
pub fn put<'m>(names: &mut NameSet<'m>, name: &'m str) -> Result<bool, OutOfMemory>
    ensures was { IfOk result (λ b. b ≡ is_among (texts_in names.old) name.now) }
    ensures now { OnOk result
        ((other : List ℕ) → is_among (texts_in names.new) other ≡ is_among (name.now ∷ texts_in names.old) other) }
{
    let added = names.insert(name)?;
    Ok(!added)
}
