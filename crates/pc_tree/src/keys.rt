//! Hash keys, derived from a text for its own names.

ghost use Rattle.std.specs.Prelude.{◌≡◌};
ghost use Rattle.pc_tree.specs.Keys.{keys_of, begun, written, finished};

use std::fmt;
use std::fmt::{Debug, Formatter, Write};
use std::hash::{BuildHasher, DefaultHasher, FoldHasher, Hasher};

/// A hasher keyed by a text. It hashes the key, then the data, then the key again, so that whoever picks names before
/// the text is complete knows neither the first multiplication nor the last.
#[derive(Clone, Copy)]
pub struct KeyedHasher {
    state: FoldHasher,
    key: u64,
}

impl Hasher for KeyedHasher {
    ghost write = { written };

    ghost finish = { finished };

    fn finish(&self) -> u64 {
        let mut last = self.state;
        last.write_u64(self.key);
        last.finish()
    }

    fn write(&mut self, bytes: &[u8]) {
        self.state.write(bytes);
    }
}

/// The hash keys for the names of a text, derived from a hash of the whole text: a text changed so that its names
/// collide has other keys. The keys affect no result, only the time. Own rule of the profile.
#[derive(Clone, Copy)]
pub struct Keys {
    first: KeyedHasher,
}

impl Keys {
    /// Derives the keys of a text.
    pub fn of(text: &[u8]) -> Keys
        ensures { result ≡ keys_of text.now }
    {
        let mut whole = DefaultHasher::new();
        whole.write(text);
        let key = whole.finish();
        let mut state = FoldHasher::default();
        state.write_u64(key);
        Keys {
            first: KeyedHasher { state, key },
        }
    }
}

impl BuildHasher for Keys {
    type Hasher = KeyedHasher;

    ghost build_hasher = { begun };

    fn build_hasher(&self) -> KeyedHasher {
        self.first
    }
}

impl Debug for Keys {
    fn fmt<W: Write>(&self, f: &mut Formatter<W>) -> fmt::Result {
        f.write_str("Keys")
    }
}
