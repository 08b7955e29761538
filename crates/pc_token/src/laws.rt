//! The law of tokens. The function states it and does nothing.
ghost use Rattle.pc_token.specs.Within.{TextHoldsItems};

/// The tokens of a text, and its refusal, lie within it.
pub fn text_holds_items()
    ensures { TextHoldsItems }
{}
