//! Early ends of a run.

ghost use Rattle.std.specs.Prelude.{◌≡◌};
ghost use Rattle.pc_machine.specs.declared.halt.Halt.TheVariants as halt;

use pc_source::OutOfMemory;
use pc_value::Exception;

/// The way a run ends early. Own rule of the profile.
#[derive(Clone, Copy, Debug, PartialEq, Eq)]
pub enum Stop {
    /// The run raised one of the exceptions that the report distinguishes.
    Raised(Exception),
    /// Another exception.
    Other,
    /// The run left the profile.
    Outside,
    /// The run was cut off: no fuel was left, a call was too deep, or a whole number did not fit 128 bits.
    Cut,
}

/// The reason that a step gives no value. Own rule of the profile.
#[derive(Clone, Copy, Debug, PartialEq, Eq)]
pub enum Halt {
    /// The run ends.
    Stopped(Stop),
    /// An allocation failed, which the model does not cover.
    OutOfMemory(OutOfMemory),
}

impl From<OutOfMemory> for Halt {
    ghost from_gives = { λ error e. e ≡ halt.OutOfMemory error };

    fn from(error: OutOfMemory) -> Halt {
        Halt::OutOfMemory(error)
    }
}

impl From<Stop> for Halt {
    ghost from_gives = { λ s e. e ≡ halt.Stopped s };

    fn from(stop: Stop) -> Halt {
        Halt::Stopped(stop)
    }
}
