//! Findings and their codes.

ghost use Rattle.std.specs.Prelude.{◌≡◌};
ghost use Rattle.pc_tree.specs.Code.{text_of, label_of, is_error};

use pc_source::Place;

/// The code of a finding: an error (`E`), or a dynamic place (`A`), where a value of type `Any` is used or passed on
/// without proof. Codes are in the order of their texts. Own rule of the profile.
#[derive(Clone, Copy, Debug, PartialEq, Eq, PartialOrd, Ord)]
pub enum Code {
    /// A value of type `Any` flows to a place that only a reading of `Any` allows.
    A1,
    /// An operator on a value of type `Any`.
    A2,
    /// An index into a value of type `Any`.
    A3,
    /// An attribute of a value of type `Any`.
    A4,
    /// A loop over a value of type `Any`.
    A5,
    /// A call of a value of type `Any`.
    A6,
    /// `isinstance(x, list)` of a local of type `Any` or `object`.
    A7,
    /// A method that overrides another only by a reading of `Any`.
    A8,
    /// A name bound again.
    E01,
    /// A name that resolves to nothing.
    E02,
    /// An initializer that names what is not defined yet.
    E03,
    /// A local that may be unassigned.
    E04,
    /// `break` or `continue` outside a loop.
    E05,
    /// A member's name that the class or an ancestor has.
    E06,
    /// A base that is no earlier class.
    E07,
    /// A field without a default after one with a default.
    E08,
    /// An annotation that is no type.
    E09,
    /// A union that is no type.
    E10,
    /// A method that does not fit the one that it overrides.
    E11,
    /// A value that does not fit where it goes.
    E12,
    /// An operator on operands that it does not accept.
    E13,
    /// A call with arguments that do not suit, or of a value.
    E14,
    /// An attribute that does not exist.
    E15,
    /// An index that the value does not accept, or a value without items.
    E16,
    /// A value that accepts no store to an item.
    E17,
    /// A value that cannot be iterated.
    E18,
    /// The right operand of `in` cannot contain anything.
    E19,
    /// A function, a class, a method or a reserved name as a value.
    E20,
    /// A function that may end without returning its value.
    E21,
    /// A dict display whose keys are neither all int nor all str.
    E22,
    /// A store to a method.
    E23,
    /// An annotation of a local that is bound already.
    E24,
    /// A second argument of `isinstance` that is none of its types.
    E25,
    /// A type of more than 256 nodes.
    E26,
    /// A built-in function where it may not be used.
    E27,
    /// No function `main` without parameters.
    E28,
    /// A reserved name bound, or a field named `mro`.
    E29,
    /// An unreachable statement.
    E30,
    /// A parameter without a default after one with a default.
    E31,
}

impl Code {
    /// Returns the code as a report prints it.
    pub fn text(self) -> &'static str
        ensures { result.now ≡ text_of self }
    {
        match self {
            Code::A1 => "A1",
            Code::A2 => "A2",
            Code::A3 => "A3",
            Code::A4 => "A4",
            Code::A5 => "A5",
            Code::A6 => "A6",
            Code::A7 => "A7",
            Code::A8 => "A8",
            Code::E01 => "E01",
            Code::E02 => "E02",
            Code::E03 => "E03",
            Code::E04 => "E04",
            Code::E05 => "E05",
            Code::E06 => "E06",
            Code::E07 => "E07",
            Code::E08 => "E08",
            Code::E09 => "E09",
            Code::E10 => "E10",
            Code::E11 => "E11",
            Code::E12 => "E12",
            Code::E13 => "E13",
            Code::E14 => "E14",
            Code::E15 => "E15",
            Code::E16 => "E16",
            Code::E17 => "E17",
            Code::E18 => "E18",
            Code::E19 => "E19",
            Code::E20 => "E20",
            Code::E21 => "E21",
            Code::E22 => "E22",
            Code::E23 => "E23",
            Code::E24 => "E24",
            Code::E25 => "E25",
            Code::E26 => "E26",
            Code::E27 => "E27",
            Code::E28 => "E28",
            Code::E29 => "E29",
            Code::E30 => "E30",
            Code::E31 => "E31",
        }
    }

    /// Returns the word for the code in a report.
    pub fn label(self) -> &'static str
        ensures { result.now ≡ label_of self }
    {
        match self {
            Code::A1 => "any-flow",
            Code::A2 => "any-operator",
            Code::A3 => "any-index",
            Code::A4 => "any-attribute",
            Code::A5 => "any-iterate",
            Code::A6 => "any-call",
            Code::A7 => "any-list",
            Code::A8 => "any-override",
            Code::E01 => "twice",
            Code::E02 => "unknown-name",
            Code::E03 => "order",
            Code::E04 => "unassigned",
            Code::E05 => "outside-loop",
            Code::E06 => "member",
            Code::E07 => "base",
            Code::E08 => "field-order",
            Code::E09 => "annotation",
            Code::E10 => "union",
            Code::E11 => "override",
            Code::E12 => "flow",
            Code::E13 => "operator",
            Code::E14 => "call",
            Code::E15 => "attribute",
            Code::E16 => "index",
            Code::E17 => "store",
            Code::E18 => "iterate",
            Code::E19 => "contain",
            Code::E20 => "not-a-value",
            Code::E21 => "no-return",
            Code::E22 => "keys",
            Code::E23 => "method-store",
            Code::E24 => "late-annotation",
            Code::E25 => "isinstance",
            Code::E26 => "size",
            Code::E27 => "builtin",
            Code::E28 => "main",
            Code::E29 => "reserved",
            Code::E30 => "unreachable",
            Code::E31 => "default-order",
        }
    }

    /// Whether the code is an error's; the other codes mark dynamic places.
    pub fn is_error(self) -> bool
        ensures { result ≡ is_error self }
    {
        !matches!(
            self,
            Code::A1 | Code::A2 | Code::A3 | Code::A4 | Code::A5 | Code::A6 | Code::A7 | Code::A8
        )
    }
}

/// A code at a place. Findings are ordered by start, end and code.
#[derive(Clone, Copy, Debug, PartialEq, Eq, PartialOrd, Ord)]
pub struct Finding {
    pub place: Place,
    pub code: Code,
}

/// Findings, in any order.
pub type Findings = Vec<Finding>;
