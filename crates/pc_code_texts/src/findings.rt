//! Meanings of errors and dynamic places, and advice on mending them.

ghost use Rattle.std.specs.Prelude.{◌≡◌};
ghost use Rattle.pc_code_texts.specs.Findings.{meaning_of, mending_of};

use pc_tree::Code;

/// Returns the meaning of a finding with this code, in one sentence.
pub fn meaning(code: Code) -> &'static str
    ensures { result.now ≡ meaning_of code }
{
    match code {
        Code::A1 => "A value fits where it goes only if `Any` happens to stand for the right type.",
        Code::A2 => "An operator is used on a value of type `Any`.",
        Code::A3 => "An item of a value of type `Any` is read or assigned to.",
        Code::A4 => {
            "An attribute of a value of type `Any` is read or assigned to, or a method of it is called."
        }
        Code::A5 => "A loop iterates over a value of type `Any`.",
        Code::A6 => "A value of type `Any` is called, or `len` is called on one.",
        Code::A7 => {
            "A local of type `Any` or `object` is tested with `isinstance(x, list)`, and counts as a `list[Any]` then."
        }
        Code::A8 => {
            "A method fits one of an ancestor only if `Any` happens to stand for the right type."
        }
        Code::E01 => "A name is bound again.",
        Code::E02 => "Nothing binds this name.",
        Code::E03 => "A constant uses what is not defined yet.",
        Code::E04 => "A local may have no value here.",
        Code::E05 => "There is a `break` or `continue` outside a loop.",
        Code::E06 => "The class or an ancestor already has a member of this name.",
        Code::E07 => "The base is no earlier class of this module.",
        Code::E08 => "A field without a default comes after one with a default.",
        Code::E09 => "An annotation is no type.",
        Code::E10 => "A union is no type.",
        Code::E11 => "A method does not fit the one that it overrides.",
        Code::E12 => "A value does not fit where it goes.",
        Code::E13 => "An operator does not take these values.",
        Code::E14 => "A call has arguments that do not fit the parameters.",
        Code::E15 => "The value has no such attribute.",
        Code::E16 => "The value has no items, or no such index.",
        Code::E17 => "An item of this value cannot be assigned to.",
        Code::E18 => "The value cannot be iterated.",
        Code::E19 => "The value does not contain anything that `in` could find.",
        Code::E20 => "A function, a class, a method or a reserved name is used as a value.",
        Code::E21 => "The function may end without the value that it promises.",
        Code::E22 => "The keys of a dict are neither all `int` nor all `str`.",
        Code::E23 => "A method is assigned to.",
        Code::E24 => "A local is annotated that is already bound.",
        Code::E25 => {
            "The second argument of `isinstance` is none of the types that it can test for."
        }
        Code::E26 => "A type has more than 256 nodes.",
        Code::E27 => {
            "A built-in function stands where it cannot, such as `range` outside the head of a `for`."
        }
        Code::E28 => "There is no function `main` without parameters.",
        Code::E29 => "A reserved name is bound, or a field is named `mro`.",
        Code::E30 => "No run reaches this statement.",
        Code::E31 => "A parameter without a default comes after one with a default.",
    }
}

/// Returns advice on how to mend a finding with this code; for a dynamic place, on how to make it static.
pub fn mending(code: Code) -> &'static str
    ensures { result.now ≡ mending_of code }
{
    match code {
        Code::A1 => {
            "Annotate the source of the value, or test it with `isinstance`; if the value is in error itself, mend that."
        }
        Code::A2 => {
            "Annotate the parameters that the value comes from; if the value is in error itself, mend that."
        }
        Code::A3 => {
            "Annotate the parameter that the value comes from; if the value is in error itself, mend that."
        }
        Code::A4 => {
            "Annotate the parameter with its class, or test it with `isinstance`; if the value is in error itself, mend that."
        }
        Code::A5 => {
            "Annotate the parameter that the value comes from; if the value is in error itself, mend that."
        }
        Code::A6 => {
            "Pass an instance with a method in place of a value to be called, and annotate it; if the value is in error itself, mend that."
        }
        Code::A7 => "Name the list in the type of the parameter.",
        Code::A8 => "Annotate the ancestor's parameter with a type that all descendants accept.",
        Code::E01 => "Give each one a name of its own.",
        Code::E02 => {
            "Spell the name as it is bound, or write the missing function: most built-ins of Python are left out."
        }
        Code::E03 => "Define things before they are used, and call functions in `main`.",
        Code::E04 => "Assign to it on every path, or once beforehand.",
        Code::E05 => "Write `return` to leave a function.",
        Code::E06 => "Leave out what is inherited; only a method that fits may be defined again.",
        Code::E07 => "Define the base first; a built-in type cannot be a base.",
        Code::E08 => "Put the fields without defaults first.",
        Code::E09 => {
            "Write a class of the module or a type of the profile, with what a list or dict contains; an optional value is `T | None`."
        }
        Code::E10 => "Put the union inside, or keep only the wider member.",
        Code::E11 => "Keep the parameters of the ancestor's method, or choose another name.",
        Code::E12 => {
            "Give a value of the expected type, or change the type of the place; of a union, test first for the members that do not fit."
        }
        Code::E13 => {
            "Turn one value into the kind of the other, for example with `str`; if one may be None, test a local that has it first."
        }
        Code::E14 => "Give every parameter one argument, or give the parameter a default.",
        Code::E15 => {
            "Use an attribute that exists; if the value may be None, give it to a local and test that first."
        }
        Code::E16 => {
            "Use an index of the right kind; if the value may be None, test a local that has it first."
        }
        Code::E17 => "Make a new tuple or string, or use a list.",
        Code::E18 => "Loop over a list, or use `range` to count.",
        Code::E19 => "Test for None first, and use `in` on a list, a dict, a tuple or a string.",
        Code::E20 => {
            "Call a function, or make an instance of a class; the name of a type is no value."
        }
        Code::E21 => {
            "Return a value on every path, or allow None in the return type; neither `assert` nor a loop ends a path."
        }
        Code::E22 => "Split the dict in two, and annotate what receives an empty dict.",
        Code::E23 => "Call the method, or assign to a field.",
        Code::E24 => "Put the annotation on the first binding.",
        Code::E25 => "Combine two tests with `or`, and write `is None` to test for None.",
        Code::E26 => "Use lists for many values of the same kind.",
        Code::E27 => {
            "Write `range` in the head of the loop, and call `len` on a value that has a length."
        }
        Code::E28 => "Write a function `main` without parameters.",
        Code::E29 => "Choose another name.",
        Code::E30 => "Remove it, or move it to where it is reached.",
        Code::E31 => "Put the parameters without defaults first.",
    }
}
