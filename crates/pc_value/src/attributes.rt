//! The fields of instances.

ghost use Rattle.std.specs.Prelude.{◌≡◌, IfOk, map};
ghost use Rattle.pc_value.specs.Meaning.{slot_of};
ghost use Rattle.pc_value.specs.Seeing.{seen_of};
ghost use Rattle.pc_value.specs.Doing.{outcome_of};
ghost use Rattle.pc_value.specs.Attributes.{field_value, field_outcome, attribute_outcome};
ghost use Rattle.pc_value.specs.Internal.Keys.{option_value};

use crate::action::{Exception, Outcome};
use crate::seen::Seen;
use crate::text::same_name;
use crate::value::{Slot, Value};
use pc_source::OutOfMemory;
use std::alloc::Global;

/// Returns the value of a field, or `None` if there is no field of that name.
pub fn field_value<'a>(name: &str, fields: &'a [Slot]) -> Option<&'a Value>
    ensures { option_value result ≡ field_value name.now (map slot_of fields.now) }
{
    for slot in fields {
        if same_name(&slot.name, name) {
            return Some(&slot.value);
        }
    }
    None
}

/// Gives the value of a field; without one, a method's name is out of the profile and any other name is
/// AttributeError.
fn field_outcome(
    alloc: Global,
    field: Option<&Value>,
    is_method: bool,
) -> Result<Outcome, OutOfMemory>
    ensures { IfOk result (λ o. outcome_of o ≡ field_outcome (option_value field.entry) is_method) }
{
    match (field, is_method) {
        (Some(value), _) => Ok(Outcome::Gives(value.copy(alloc)?)),
        (None, true) => Ok(Outcome::Outside),
        (None, false) => Ok(Outcome::Raised(Exception::AttributeError)),
    }
}

/// Evaluates `e.f`: an instance has its fields, None has no attribute, other kinds are out of the profile. Language
/// Reference 6.3.1 "Attribute references".
pub fn attribute(
    alloc: Global,
    object: Seen<'_>,
    name: &str,
    is_method: bool,
) -> Result<Outcome, OutOfMemory>
    ensures { IfOk result (λ o. outcome_of o ≡ attribute_outcome (seen_of object.entry) name.now is_method) }
{
    match object {
        Seen::Instance(_, _, fields) => field_outcome(alloc, field_value(name, fields), is_method),
        Seen::Nothing => Ok(Outcome::Raised(Exception::AttributeError)),
        _ => Ok(Outcome::Outside),
    }
}
