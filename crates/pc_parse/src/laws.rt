//! The law of the grammar's refusals. The function states it and does nothing.
ghost use Rattle.pc_parse.specs.Laws.{RefusalsWithin};

/// The refusal of tokens within a text is at a byte from 0 to its length.
pub fn refusals_within()
    ensures { RefusalsWithin }
{}
