//! The laws of calls from outside: the guarantees for other code that imports a module.

ghost use Rattle.pc_sound.specs.CallSequences.{CallSequencesAreSound};
ghost use Rattle.pc_sound.specs.Fitting.{FittingCallsAreSound, FittingIsRight, FittingSequencesAreSound};
ghost use Rattle.pc_sound.specs.Loading.{LoadingIsSound};
ghost use Rattle.pc_sound.specs.OutsideCalls.{CallsAreSound};

/// The law of one call from outside of a module without silent findings, in a state in which the module can be called.
/// The call is of a function, of a class or of a method of an object, with arguments that match. Either it has
/// evaluated the place of a finding, or it ends as promised: with a value of its type, in another exception, or cut
/// off; and then the module can be called again, with each location of the type that it had.
pub fn calls_from_outside_are_sound()
    ensures { CallsAreSound }
{}

/// The law of loading a module without silent findings: its items, run from where nothing is bound, have evaluated the
/// place of a finding, or they end where the module can be called, in another exception, or cut off.
pub fn loading_is_sound()
    ensures { LoadingIsSound }
{}

/// The law of call sequences of a module without silent findings, from a state in which it can be called: each call has
/// evaluated the place of a finding, or it ends as promised and so do the calls after it, whatever other code does to
/// the heap between them, as long as the module can be called.
pub fn call_sequences_are_sound()
    ensures { CallSequencesAreSound }
{}

/// The law of the border, in a state in which the module can be called, whatever other code does to the heap: if a call
/// fits, then under the heap typing found the module can be called, the objects are of their classes and the arguments
/// match. If no finding of the module is silent, a call that fits has therefore evaluated the place of a finding or
/// ends as promised; and so does any number of calls that fit, one after another.
pub fn fitting_is_right()
    ensures right { FittingIsRight }
    ensures sound { FittingCallsAreSound }
    ensures goes_on { FittingSequencesAreSound }
{}
