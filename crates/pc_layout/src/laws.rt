//! Laws of the layout. Each function states one and does nothing.
ghost use Rattle.pc_layout.specs.Laws.{OneForest, OneLayout, LayoutOrRefusal, OneRefusal, FaultsAtTokens};
ghost use Rattle.pc_layout.specs.Laws.{LinesStandInOrder, FaultsWithin, LayoutsWithin};

/// Lines are the lines of at most one forest at column 0.
pub fn one_forest()
    ensures { OneForest }
{}

/// Lines have at most one layout.
pub fn one_layout()
    ensures { OneLayout }
{}

/// Lines that have a layout have no refusal.
pub fn layout_or_refusal()
    ensures { LayoutOrRefusal }
{}

/// Lines have at most one refusal.
pub fn one_refusal()
    ensures { OneRefusal }
{}

/// A fault of lines that have tokens is where one of their tokens begins.
pub fn faults_at_tokens()
    ensures { FaultsAtTokens }
{}

/// The logical lines of a text without a lexical fault are in order: each has a token, and each token begins at or
/// after the end of the one before. This makes a refusal of the layout the first one.
pub fn lines_stand_in_order()
    ensures { LinesStandInOrder }
{}

/// A fault of lines within a text is at a byte from 0 to its length.
pub fn faults_within()
    ensures { FaultsWithin }
{}

/// The layout of lines within their text lies within it.
pub fn layouts_within()
    ensures { LayoutsWithin }
{}
