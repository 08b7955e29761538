//! Lists of values that grow by one value at a time. These functions stay out of those that evaluate (`inline(never)`),
//! so that a growing list does not enlarge each of their stack frames.

ghost use Rattle.std.specs.Prelude.{◌≡◌, ◌<◌, ◌+◌, ◌-◌, ◌++◌, ◌∷◌, [], map, OnOk};
ghost use Rattle.pc_value.specs.Meaning.{value_of, entry_of};
ghost use Rattle.pc_machine.specs.Machine.{named_of};

use pc_machine::NamedValue;
use pc_source::OutOfMemory;
use pc_value::Value;

/// Adds a value.
#[inline(never)]
pub fn keep(values: &mut Vec<Value>, value: Value) -> Result<(), OutOfMemory>
    ensures { OnOk result (values.new.items ≡ values.old.items ++ value ∷ []) }
{
    values.push(value)?;
    Ok(())
}

/// Adds an entry of a dict.
#[inline(never)]
pub fn keep_entry(
    entries: &mut Vec<pc_value::DictEntry>,
    key: Value,
    value: Value,
) -> Result<(), OutOfMemory>
    ensures { OnOk result (map entry_of entries.new.items
        ≡ map entry_of entries.old.items ++ record { key = value_of key; value = value_of value } ∷ []) }
{
    entries.push(pc_value::DictEntry { key, value })?;
    Ok(())
}

/// Adds an argument by name.
#[inline(never)]
pub fn keep_named<'m>(
    named: &mut Vec<NamedValue<'m>>,
    name: &'m str,
    value: Value,
) -> Result<(), OutOfMemory>
    ensures { OnOk result (map named_of named.new.items ≡ map named_of named.old.items ++ record {
      name = name.now;
      value = value_of value;
    } ∷ []) }
{
    named.push(NamedValue { name, value })?;
    Ok(())
}
