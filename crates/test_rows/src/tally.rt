//! The tally of a table's cases.

use std::alloc::{AllocError, Global};

/// The number of a table's cases, the number of those that differ from it, and a text that lists these.
#[derive(Drop)]
pub struct Tally {
    cases: u64,
    differences: u64,
    told: String,
}

impl Tally {
    /// Returns a tally without cases.
    pub fn new(alloc: Global) -> Tally {
        Tally {
            cases: 0,
            differences: 0,
            told: String::new(alloc),
        }
    }

    /// Counts a case; lists it if its answer differs from the table's.
    pub fn count(&mut self, text: &str, want: &str, got: &str) -> Result<(), AllocError> {
        self.cases = self.cases.saturating_add(1);
        if want != got {
            self.differences = self.differences.saturating_add(1);
            for part in [text, "\n-- wanted:\n", want, "\n-- came:\n", got, "\n"] {
                self.told.push_str(part)?;
            }
        }
        Ok(())
    }

    /// Returns whether there is a case, and none differs.
    pub fn agrees(&self) -> bool {
        self.cases > 0 && self.differences == 0
    }

    /// Returns the list of the cases that differ.
    pub fn told(&self) -> &str {
        self.told.as_str()
    }

    /// Returns the counts in words.
    pub fn summary(&self, alloc: Global) -> Result<String, AllocError> {
        let (cases, differences) = (self.cases, self.differences);
        match (cases, differences) {
            (0, _) => String::from_str(alloc, "no case"),
            (_, 0) => format!(in alloc; "{cases} agree"),
            _ => format!(in alloc; "{differences} of {cases} differ"),
        }
    }
}
