//! The example of one list passed as two types from outside.

ghost use Rattle.std.specs.Prelude.{◌≡◌, Some, None};
ghost use Rattle.pc_sound.specs.BorderExample.{first_and_second, first_twice, list_and_text, loaded, one_each, program};
ghost use Rattle.pc_sound.specs.OutsideCalls.{CanBeCalled};
ghost use Rattle.pc_sound.specs.Silent.{HasNoSilentError};

/// The law of a function of a `list[int]` and a `list[int | None]` that is called from outside: its module has no
/// silent finding and can be called after its items have run. A call with two lists fits, with one of them recorded as
/// each type; a call with one list twice does not fit, nor does one with a text as the second argument.
pub fn example_of_a_border()
    ensures clean { HasNoSilentError program }
    ensures ready { CanBeCalled program loaded }
    ensures fitting { first_and_second ≡ Some one_each }
    ensures aliased { first_twice ≡ None }
    ensures other { list_and_text ≡ None }
{}
