//! Names that are already bound.

ghost use Rattle.std.specs.Prelude.{◌≡◌, OnOk};
ghost use Rattle.pc_rules.specs.Computed.Signatures.{is_in_names, with_name};

use indexmap::IndexSet;
use pc_source::OutOfMemory;
use pc_tree::Keys;
use std::alloc::Global;

/// A set of names that are already bound.
pub type BoundNames = IndexSet<String, Keys>;

/// Returns whether a name is already bound.
pub(crate) fn is_bound(bound: &BoundNames, name: &str) -> bool
    ensures { result ≡ is_in_names bound.now name.now }
{
    bound.contains(name)
}

/// Adds a name to the bound ones.
pub fn bind(bound: &mut BoundNames, alloc: Global, name: &str) -> Result<(), OutOfMemory>
    ensures { OnOk result (is_in_names bound.new ≡ with_name (is_in_names bound.old) name.now) }
{
    if !bound.contains(name) {
        bound.insert(String::from_str(alloc, name)?)?;
    }
    Ok(())
}
