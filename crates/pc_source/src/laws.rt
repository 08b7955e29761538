//! Laws of the source text. Each function states one and does nothing.
ghost use Rattle.pc_source.specs.Laws.{OneRefusal, RefusalsWithin};

/// Bytes have at most one refusal as a source.
pub fn one_refusal()
    ensures { OneRefusal }
{}

/// A refusal is at a byte from 0 to the length of the bytes.
pub fn refusals_within()
    ensures { RefusalsWithin }
{}
