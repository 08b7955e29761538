//! The rows of a tree: one for each node, with its depth, its role in the node around it, its kind, its place, and its
//! own text.
use pc_source::Place;
use pc_tree::Name;
use std::alloc::AllocError;

/// The position of a node in the tree: its depth, 0 for the module, and its role in the node around it.
#[derive(Clone, Copy, Debug)]
pub struct TreePosition {
    pub depth: usize,
    pub role: &'static str,
}

impl TreePosition {
    /// Returns the position of a part of the node that is here.
    pub fn part(self, role: &'static str) -> TreePosition {
        TreePosition {
            depth: self.depth.saturating_add(1),
            role,
        }
    }
}

/// Begins the row of a node.
fn begin(out: &mut String, at: TreePosition, kind: &str) -> Result<(), AllocError> {
    let (depth, role) = (at.depth, at.role);
    write!(out, "{depth} {role} {kind}")?;
    Ok(())
}

/// Begins the row of a node with a place.
fn begin_placed(
    out: &mut String,
    at: TreePosition,
    kind: &str,
    place: Place,
) -> Result<(), AllocError> {
    let (start, end) = (place.start, place.end);
    begin(out, at, kind)?;
    write!(out, " {start} {end}")?;
    Ok(())
}

/// Adds the row of a node that has no place of its own.
pub fn list_group(out: &mut String, at: TreePosition, kind: &str) -> Result<(), AllocError> {
    begin(out, at, kind)?;
    out.push_str("\n")
}

/// Adds the row of a node without a text of its own.
pub fn list_node(
    out: &mut String,
    at: TreePosition,
    kind: &str,
    place: Place,
) -> Result<(), AllocError> {
    begin_placed(out, at, kind, place)?;
    out.push_str("\n")
}

/// Adds the row of a node with a word: the text of a name, or the digits of a number.
pub fn list_word(
    out: &mut String,
    at: TreePosition,
    kind: &str,
    place: Place,
    word: &str,
) -> Result<(), AllocError> {
    begin_placed(out, at, kind, place)?;
    for part in [" ", word, "\n"] {
        out.push_str(part)?;
    }
    Ok(())
}

/// Adds the row of a name.
pub fn list_name(out: &mut String, at: TreePosition, name: &Name) -> Result<(), AllocError> {
    list_word(out, at, "Name", name.place, name.text.as_str())
}

/// Adds the row of a string, with its bytes in hexadecimal digits.
pub fn list_string(
    out: &mut String,
    at: TreePosition,
    place: Place,
    text: &str,
) -> Result<(), AllocError> {
    begin_placed(out, at, "Str", place)?;
    out.push_str(" ")?;
    for byte in text.as_bytes() {
        let byte = *byte;
        write!(out, "{byte:02x}")?;
    }
    out.push_str("\n")
}
