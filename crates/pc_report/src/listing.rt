//! The listing of types: the text of the type of each expression and of each bound name, in order, with lines and
//! columns.

ghost use Rattle.std.specs.Prelude.{◌≡◌, ◌↔◌, ◌++◌, ◌∷◌, [], IfOk, IsTrue, List, Contains, map, option_map};
ghost use Rattle.std.specs.List.{AllByRecursion};
ghost use Rattle.std.specs.List.Sorted.{IsStrictlySortedBy};
ghost use Rattle.pc_report.specs.TypeListing.{TypeFact, IsAround, IsSmallestAt, ListsTypes, HasPosition, bytes_in};
ghost use Rattle.pc_report.specs.TypeListing.{fact_of, fact_cmp, row_facts, content_of};
ghost use Rattle.pc_report.specs.declared.listing.TypeEntry.{TypeEntry};
ghost use Rattle.pc_report.specs.declared.listing.TypeRow.{TypeRow};

use crate::report::{START, row_position};
use pc_source::{OutOfMemory, Place, Source};
use std::alloc::Global;
use std::marker::Model;
use std::rc::RcStr;

/// The kind of a row of a listing of types. Own rule of the profile.
#[derive(Clone, Copy, Debug, PartialEq, Eq, PartialOrd, Ord)]
pub enum TypeKind {
    /// An expression.
    Expression,
    /// A name, at a place where it is bound.
    Name,
}

/// The text of the type of an expression, or of the declared type of a name; and of a name the text of its current type
/// after the binding, if that is another. Entries are ordered by start, end, kind and texts.
#[derive(Debug, Drop, PartialEq, Eq, PartialOrd, Ord)]
pub struct TypeEntry {
    pub place: Place,
    pub kind: TypeKind,
    pub text: RcStr,
    pub current: Option<RcStr>,
}

impl TypeEntry {
    /// Returns an entry that tells the same, whose texts are shared with this one.
    fn share(&self) -> Result<TypeEntry, OutOfMemory>
        ensures { IfOk result (λ e. fact_of e ≡ fact_of self.now) }
    {
        let current = match &self.current {
            None => None,
            Some(text) => Some(text.clone()?),
        };
        Ok(TypeEntry {
            place: self.place,
            kind: self.kind,
            text: self.text.clone()?,
            current,
        })
    }
}

/// An entry, with the line and the column of its start and of its end, all from 1.
#[derive(Debug, Drop, PartialEq, Eq)]
pub struct TypeRow {
    pub entry: TypeEntry,
    pub line: u64,
    pub column: u64,
    pub end_line: u64,
    pub end_column: u64,
}

impl TypeRow {
    /// Returns whether a byte is in the row's place, or just after it.
    fn is_around(&self, byte: usize) -> bool
        ensures { IsTrue result ↔ IsAround byte self.now.entry.place }
    {
        self.entry.place.start <= byte && byte <= self.entry.place.end
    }

    /// Returns the number of bytes of the row's place.
    fn bytes(&self) -> usize
        ensures { result ≡ bytes_in self.now.entry.place }
    {
        self.entry.place.end.saturating_sub(self.entry.place.start)
    }

    /// Returns a row with the same content. Its texts are shared with this one.
    ///
    /// # Errors
    ///
    /// `OutOfMemory` if a text is shared too often.
    pub fn share(&self) -> Result<TypeRow, OutOfMemory>
        ensures { IfOk result (λ r. content_of r ≡ content_of self.now) }
    {
        Ok(TypeRow {
            entry: self.entry.share()?,
            line: self.line,
            column: self.column,
            end_line: self.end_line,
            end_column: self.end_column,
        })
    }
}

/// Types of expressions and of names, sorted by start, end, kind and texts, without repeats. Contracts treat it as the
/// list of its rows.
#[derive(Drop)]
pub struct TypeListing {
    rows: Vec<TypeRow>,
}

impl Model for TypeListing {
    ghost Value = { List TypeRow };

    ghost view = { λ l. l.rows.items };
}

/// Sorts entries, and removes repeats.
fn put_in_order(entries: &mut Vec<TypeEntry>)
    ensures exact { (f : TypeFact) → Contains (map fact_of entries.new.items) f
        ↔ Contains (map fact_of entries.old.items) f }
    ensures in_order { IsStrictlySortedBy fact_cmp (map fact_of entries.new.items) }
{
    entries.sort_unstable();
    // Equal entries are adjacent after sorting.
    entries.dedup();
}

/// Returns the rows of entries, in one walk over the source if they are in order.
fn placed(
    alloc: Global,
    source: &Source,
    entries: &[TypeEntry],
) -> Result<Vec<TypeRow>, OutOfMemory>
    ensures facts { IfOk result (λ v. row_facts v.items ≡ map fact_of entries.now) }
    ensures placed { IfOk result (λ v. AllByRecursion (HasPosition source.now) v.items) }
{
    let text = source.text().as_bytes();
    let mut rows = Vec::with_capacity(alloc, entries.len())?;
    let mut position = START;
    for entry in entries {
        position = row_position(text, position, entry.place.start);
        let end = row_position(text, position, entry.place.end);
        rows.push(TypeRow {
            entry: entry.share()?,
            line: position.line,
            column: position.column,
            end_line: end.line,
            end_column: end.column,
        })?;
    }
    Ok(rows)
}

/// Returns the row with the smallest place around a byte, of the smallest one so far and the next row.
fn smaller<'r>(smallest: Option<&'r TypeRow>, row: &'r TypeRow, byte: usize) -> Option<&'r TypeRow>
    ensures { (rows : List TypeRow) → IsSmallestAt byte rows (option_map (λ r. r.now) smallest.entry)
        → IsSmallestAt byte (rows ++ row.now ∷ []) (option_map (λ r. r.now) result) }
{
    if !row.is_around(byte) {
        return smallest;
    }
    match smallest {
        None => Some(row),
        Some(best) => Some(if best.bytes() <= row.bytes() {
            best
        } else {
            row
        }),
    }
}

impl TypeListing {
    /// Returns the listing of entries of a source.
    ///
    /// # Errors
    ///
    /// `OutOfMemory` if an allocation failed.
    pub fn of(
        alloc: Global,
        source: &Source,
        entries: Vec<TypeEntry>,
    ) -> Result<TypeListing, OutOfMemory>
        ensures { IfOk result (ListsTypes source.now (Contains (map fact_of entries.items))) }
    {
        let mut entries = entries;
        put_in_order(&mut entries);
        let rows = placed(alloc, source, &entries)?;
        Ok(TypeListing { rows })
    }

    /// Returns the rows.
    pub fn rows(&self) -> &[TypeRow]
        ensures { result.now ≡ self.now }
    {
        &self.rows
    }

    /// Returns the row with the smallest place around a byte, the first one if there are several, or `None` if no place
    /// is around it. A place is around its own bytes, and around the byte after it. Own rule of the profile.
    pub fn smallest_at(&self, byte: usize) -> Option<&TypeRow>
        ensures { IsSmallestAt byte self.now (option_map (λ r. r.now) result) }
    {
        let mut smallest = None;
        for row in self.rows() {
            smallest = smaller(smallest, row, byte);
        }
        smallest
    }
}
