//! The targets of the arguments of a call: a list of parameters, or the fields of a class.

ghost use Rattle.std.specs.Prelude.{◌≡◌, ◌≤◌, length, slice_get};
ghost use Rattle.std.specs.Option.{option_map};
ghost use Rattle.pc_scope.specs.Resolution.{index_of};
ghost use Rattle.pc_class.specs.Listed.{names_listed, needed_in};
ghost use Rattle.pc_class.specs.Listings.{listed_in};
ghost use Rattle.pc_class.specs.Parts.{lent_parameter};

use crate::listed::ParameterList;
use crate::table::{ClassTable, Parameter};

/// The targets of the arguments of a call: the parameters of a function or method, or the fields of a class, with those
/// of its ancestors first.
#[derive(Drop)]
pub enum Listing<'t, Ty: Drop> {
    Parameters(&'t ParameterList<Ty>),
    Fields(&'t ClassTable<Ty>, usize),
}

impl<'t, Ty: Drop> Listing<'t, Ty> {
    /// Returns the number of parameters or fields.
    pub fn len(&self) -> usize
        ensures { result ≡ length (listed_in self.now) }
    {
        match self {
            Listing::Parameters(params) => params.as_slice().len(),
            Listing::Fields(table, class) => table.field_count(*class),
        }
    }

    /// Returns the position of the first parameter or field with a name; `None` if there is no such one.
    pub fn place(&self, name: &str) -> Option<usize>
        ensures { result ≡ index_of name.now (names_listed (listed_in self.now)) }
    {
        match self {
            Listing::Parameters(params) => params.place(name),
            Listing::Fields(table, class) => table.field_place(*class, name),
        }
    }

    /// Returns how many of the first `count` parameters or fields there are up to the last one without a default, 0 if
    /// all have one.
    pub fn needed(&self, count: usize) -> usize
        requires { count ≤ length (listed_in self.now) }
        ensures { result ≡ needed_in (listed_in self.now) count }
    {
        match self {
            Listing::Parameters(params) => params.needed(count),
            Listing::Fields(table, class) => table.fields_needed(*class, count),
        }
    }

    /// Returns the parameter or field at a position; `None` past the last one.
    pub fn at(&self, place: usize) -> Option<&Parameter<Ty>>
        ensures { option_map lent_parameter result ≡ slice_get (listed_in self.now) place }
    {
        match self {
            Listing::Parameters(params) => params.as_slice().get(place),
            Listing::Fields(table, class) => table.field_at(*class, place),
        }
    }
}
