//! The texts of names.
ghost use Rattle.std.specs.Prelude.{◌≡◌, IfOk};
ghost use Rattle.pc_tree.specs.Text.{text_bytes};

use arrayvec::ArrayString;
use std::alloc::{AllocError, Global};
use std::fmt;

/// The text of a name. A short one, as nearly all are, is stored inline.
#[derive(Drop)]
pub enum Text {
    Short(ArrayString<16>),
    Long(String),
}

impl Text {
    /// Copies a text.
    pub fn of(alloc: Global, text: &str) -> Result<Text, AllocError>
        ensures { IfOk result (λ t. text_bytes t ≡ text.now) }
    {
        match ArrayString::from(text) {
            Ok(short) => Ok(Text::Short(short)),
            Err(_) => Ok(Text::Long(String::from_str(alloc, text)?)),
        }
    }

    /// Returns the text.
    pub fn as_str(&self) -> &str
        ensures value { result.now ≡ text_bytes self.now }
    {
        match self {
            Text::Short(short) => short.as_str(),
            Text::Long(long) => long.as_str(),
        }
    }
}

impl fmt::Debug for Text {
    fn fmt<W: fmt::Write>(&self, f: &mut fmt::Formatter<W>) -> fmt::Result {
        fmt::Debug::fmt(self.as_str(), f)
    }
}
