//! Heads of types.

ghost use Rattle.std.specs.Prelude.{◌≡◌};

/// The head of a type: its form without its parts. Own rule of the profile.
#[derive(Clone, Copy, Debug, PartialEq, Eq, Hash)]
pub enum Head {
    Any,
    Object,
    Never,
    Int,
    Bool,
    Str,
    None,
    List,
    Dict,
    /// A tuple of this length.
    Tuple(usize),
    /// The class with this number.
    Class(usize),
    /// A union of this many members, two or more.
    Union(usize),
}

impl Head {
    ghost use Rattle.pc_types.specs.Head.{part_count};

    /// Returns the number of parts of a type with this head.
    pub fn part_count(self) -> usize
        ensures { result ≡ part_count self }
    {
        match self {
            Head::List => 1,
            Head::Dict => 2,
            Head::Tuple(count) | Head::Union(count) => count,
            _ => 0,
        }
    }
}
