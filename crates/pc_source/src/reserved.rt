//! Reserved names, which nothing may bind.
ghost use Rattle.std.specs.Prelude.{◌≡◌, ◌==◌, map, bytes_eq, slice_index};
ghost use Rattle.std.specs.List.{list_any, filter};
ghost use Rattle.pc_source.specs.ReservedNames.{is_reserved, reserved_names};

/// Returns the reserved names that begin with this byte. Own rule of the profile.
fn beginning_with(byte: u8) -> &'static [&'static str]
    ensures { map (λ n. n.now) result.now ≡ filter (λ n. slice_index n 0 == byte) reserved_names }
{
    match byte {
        b'A' => &["Any"],
        b'a' => &["annotations"],
        b'b' => &["bool"],
        b'd' => &["dataclass", "dict"],
        b'i' => &["int", "isinstance"],
        b'l' => &["len", "list"],
        b'o' => &["object"],
        b'p' => &["print"],
        b'r' => &["range"],
        b's' => &["str"],
        b't' => &["tuple"],
        _ => &[],
    }
}

/// Whether `name` is one of `names`.
fn is_among(names: &[&str], name: &str) -> bool
    ensures { result ≡ list_any (λ n. bytes_eq name.now n) (map (λ n. n.now) names.now) }
{
    for other in names {
        if name == *other {
            return true;
        }
    }
    false
}

/// Whether a name is reserved. Compares it only with the reserved names that have its first byte. Own rule of the
/// profile.
pub fn is_reserved(name: &str) -> bool
    ensures { result ≡ is_reserved name.now }
{
    let bytes = name.as_bytes();
    if bytes.is_empty() {
        return false;
    }
    is_among(beginning_with(bytes[0]), name)
}
