//! Laws of framed messages.

ghost use Rattle.pc_wire.specs.Laws.{OneFrame, OneList};

/// Bytes begin with at most one framed message.
pub fn one_frame()
    ensures { OneFrame }
{}

/// Bytes are at most one list of framed messages.
pub fn one_list()
    ensures { OneList }
{}
