//! Growing lists that are mostly short.
ghost use Rattle.std.specs.Prelude.{◌≡◌, ◌++◌, ◌∷◌, [], OnOk, OnErr};

use pc_source::OutOfMemory;

/// Appends an item. A full list doubles its capacity exactly, from none to one: most lists of a tree have one or two
/// items.
///
/// # Errors
///
/// `OutOfMemory` if the list cannot grow; it stays as it was.
pub fn put_last<T: Drop>(items: &mut Vec<T>, item: T) -> Result<(), OutOfMemory>
    ensures items { OnOk result (items.new.items ≡ items.old.items ++ item ∷ []) }
    ensures kept { OnErr result (items.new.items ≡ items.old.items) }
{
    let len = items.len();
    if len == items.capacity() {
        items.reserve_exact(len.max(1))?;
    }
    items.push(item)?;
    Ok(())
}
