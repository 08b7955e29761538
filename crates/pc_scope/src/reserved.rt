//! The reserved names and the built-ins they mean.

ghost use Rattle.std.specs.Prelude.{◌≡◌, ◌==◌, map, slice_index};
ghost use Rattle.std.specs.List.{filter};
ghost use Rattle.pc_scope.specs.Reserved.{beside, builtin_of, reserved_builtins};
ghost use Rattle.pc_scope.specs.Internal.WalkViews.{reserved_entry_seen};

use crate::resolution::Builtin;

/// Returns the reserved names that begin with a byte, each with the built-in it means. Own rule of the profile.
fn beginning_with(byte: u8) -> &'static [(&'static str, Builtin)]
    ensures { map reserved_entry_seen result.now ≡ filter (λ e. slice_index e.0 0 == byte) reserved_builtins }
{
    match byte {
        b'A' => &[("Any", Builtin::Any)],
        b'a' => &[("annotations", Builtin::Annotations)],
        b'b' => &[("bool", Builtin::Bool)],
        b'd' => &[("dataclass", Builtin::Dataclass), ("dict", Builtin::Dict)],
        b'i' => &[("int", Builtin::Int), ("isinstance", Builtin::IsInstance)],
        b'l' => &[("len", Builtin::Len), ("list", Builtin::List)],
        b'o' => &[("object", Builtin::Object)],
        b'p' => &[("print", Builtin::Print)],
        b'r' => &[("range", Builtin::Range)],
        b's' => &[("str", Builtin::Str)],
        b't' => &[("tuple", Builtin::Tuple)],
        _ => &[],
    }
}

/// Returns the built-in beside a name in a table.
fn beside(table: &[(&str, Builtin)], name: &str) -> Option<Builtin>
    ensures { result ≡ beside (map reserved_entry_seen table.now) name.now }
{
    for (other, builtin) in table {
        if *other == name {
            return Some(*builtin);
        }
    }
    None
}

/// Returns the built-in that a name means, or `None` if it is not reserved. Only reserved names with the same first
/// byte are compared.
#[tactic(auto, unfolding(crate::specs::Reserved::builtin_of))]
pub fn builtin(name: &str) -> Option<Builtin>
    ensures { result ≡ builtin_of name.now }
{
    let bytes = name.as_bytes();
    if bytes.is_empty() {
        return None;
    }
    beside(beginning_with(bytes[0]), name)
}
