//! The open suites.
ghost use Rattle.std.specs.Prelude.{◌≡◌, ℕ, ◌+◌, ◌-◌, ◌<◌, ◌≤◌, true, false, List, [], ◌∷◌, length, reverse, Ok, Err};
ghost use Rattle.std.specs.Prelude.{MatchResult};

use arrayvec::ArrayVec;
use pc_source::RefusalCode;

/// The greatest number of nested suites deeper than column 0.
const DEEPEST: usize = 50;

/// An open suite: its column in spaces, and whether it is inside the suite of a line that begins with `def`.
#[derive(Clone, Copy, Debug, Default)]
pub struct Level {
    column: usize,
    in_def: bool,
}

/// The open suites deeper than column 0, the innermost last, and two flags of the last line: whether it ends with `:`,
/// and whether it begins with `def`.
#[derive(Drop)]
pub struct Levels {
    suites: ArrayVec<Level, DEEPEST>,
    after_colon: bool,
    after_def: bool,
}

/// The signs before a line: the number of DEDENTs, and whether there is an INDENT.
#[derive(Clone, Copy, Debug)]
pub struct SuiteChange {
    pub dedents: usize,
    pub indent: bool,
}

impl Levels {
    ghost use Rattle.pc_layout.specs.Placing.{column_of, in_def_of, levels_up_to, placement};
    ghost use Rattle.pc_layout.specs.Stepping.{start};
    ghost use Rattle.pc_layout.specs.TokenIterator.Levels.{context_of};

    /// Returns the state before the first line: no suite is open.
    pub fn new() -> Levels
        ensures { context_of result ≡ start }
    {
        Levels {
            suites: ArrayVec::new(),
            after_colon: false,
            after_def: false,
        }
    }

    /// Returns the number of open suites.
    pub fn len(&self) -> usize
        ensures { result ≡ length (context_of self.now).levels }
    {
        self.suites.len()
    }

    /// Returns the column of the innermost open suite, 0 if none is open.
    pub fn column(&self) -> usize
        ensures { result ≡ column_of (context_of self.now).levels }
    {
        match self.suites.as_slice().last() {
            None => 0,
            Some(level) => level.column,
        }
    }

    /// Whether the innermost open suite is inside the suite of a line that begins with `def`.
    pub fn in_def(&self) -> bool
        ensures { result ≡ in_def_of (context_of self.now).levels }
    {
        match self.suites.as_slice().last() {
            None => false,
            Some(level) => level.in_def,
        }
    }

    /// Closes the suites deeper than `column` and returns their number.
    fn close(&mut self, column: usize) -> usize
        ensures levels { (context_of self.new).levels ≡ levels_up_to column (context_of self.old).levels }
        ensures count { result ≡ length (context_of self.old).levels - length (context_of self.new).levels }
        ensures colon { self.new.after_colon ≡ self.old.after_colon }
        ensures def { self.new.after_def ≡ self.old.after_def }
    {
        let before = self.suites.len();
        while self.column() > column {
            let _ = self.suites.pop();
        }
        before - self.suites.len()
    }

    /// Opens or closes suites for a line at `column` and returns the signs before it. Fails with `I1`, `I2` or `I3`.
    pub fn place(&mut self, column: usize) -> Result<SuiteChange, RefusalCode>
        ensures places { MatchResult result
            (λ s. placement (context_of self.old) column
            ≡ Ok (record { levels = (context_of self.new).levels; dedents = s.dedents; indent = s.indent }))
            (λ code. placement (context_of self.old) column ≡ Err code) }
        ensures colon { self.new.after_colon ≡ self.old.after_colon }
        ensures def { self.new.after_def ≡ self.old.after_def }
    {
        if column > self.column() {
            if !self.after_colon {
                return Err(RefusalCode::I2);
            }
            if self.suites.is_full() {
                return Err(RefusalCode::I3);
            }
            let in_def = self.in_def() || self.after_def;
            self.suites.push(Level { column, in_def });
            return Ok(SuiteChange {
                dedents: 0,
                indent: true,
            });
        }
        let dedents = self.close(column);
        if self.column() != column {
            return Err(RefusalCode::I1);
        }
        Ok(SuiteChange {
            dedents,
            indent: false,
        })
    }

    /// Records whether the line just placed ends with `:`, and whether it begins with `def`.
    pub fn note(&mut self, after_colon: bool, after_def: bool)
        ensures { context_of self.new ≡ record {
          levels = (context_of self.old).levels;
          after_colon = after_colon;
          after_def = after_def;
        } }
    {
        self.after_colon = after_colon;
        self.after_def = after_def;
    }
}
