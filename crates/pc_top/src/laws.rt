//! The laws of reports and of listings.

ghost use Rattle.pc_top.specs.NoNeedlessFlow.{NoNeedlessFlow};
ghost use Rattle.pc_top.specs.OneListing.{OneListing, OneListingText};
ghost use Rattle.pc_top.specs.OneReport.{OneReport, OneText};

/// The law that no flow is listed out of caution alone: if a type flows dynamically into another in a module that bytes
/// spell, under its lawful labelling, the first is assignable to the second and not static to it; and if the first
/// contains no `Never`, some well-typed heap with instances of the module's classes only has a value of the first that
/// is not of the second. Nothing is claimed of the heaps that runs can reach.
pub fn no_needless_flow()
    ensures { NoNeedlessFlow }
{}

/// The law that bytes have one report: two reports of which the headline holds for the same bytes have the same findings,
/// in the same order, each with the texts of the same two types; so they have the same text and the same JSON.
pub fn one_report()
    ensures rows { OneReport }
    ensures written { OneText }
{}

/// The law that bytes have one listing of types: two listings of the types of the same bytes have the same rows, in the
/// same order; so they have the same text and the same JSON.
pub fn one_listing_of_types()
    ensures rows { OneListing }
    ensures written { OneListingText }
{}
