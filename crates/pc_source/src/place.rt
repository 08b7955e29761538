//! Places in a source.

/// A range of the source, in bytes: from `start` to `end`, `end` excluded. Own rule of the profile.
#[derive(Clone, Copy, Debug, PartialEq, Eq, PartialOrd, Ord)]
pub struct Place {
    pub start: usize,
    pub end: usize,
}
