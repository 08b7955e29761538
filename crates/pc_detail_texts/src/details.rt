//! Details of findings: what is wrong, in the types, names and places of the module.

use pc_source::Place;
use pc_tree::{BinaryOperator, ComparisonOperator};
use std::rc::RcStr;

/// The name of a function as it is shown, with its class if it is a method.
#[derive(Drop)]
pub struct FunctionName {
    pub class: Option<RcStr>,
    pub name: RcStr,
}

/// The callee of a call.
#[derive(Drop)]
pub enum Callable {
    Function(FunctionName),
    Class(RcStr),
    Builtin(RcStr),
    /// A method of a list or a dict: the type of the object, and the name.
    Member(RcStr, RcStr),
    /// A value of this type.
    Value(RcStr),
}

/// How many arguments are taken, and how many are given.
#[derive(Clone, Copy)]
pub struct Counts {
    pub takes: usize,
    pub given: usize,
}

/// The reason why the arguments of a call do not suit its callee.
#[derive(Drop)]
pub enum Misfit {
    TooMany(Counts),
    TooFew(Counts),
    /// Arguments by name, where only arguments by position are taken.
    ByPositionOnly,
    NoParameter(RcStr),
    GivenTwice(RcStr),
    /// The names of some parameters without an argument, and the number of the others.
    Missing(Vec<RcStr>, usize),
    NotCallable,
}

/// A member of a class, by the name of its class and its own.
#[derive(Drop)]
pub struct MemberName {
    pub class: RcStr,
    pub name: RcStr,
}

/// A place that keeps a value.
#[derive(Drop)]
pub enum Holder {
    /// A parameter of this name.
    Parameter(RcStr, Callable),
    Field(MemberName),
    Local(RcStr),
    LoopTarget(RcStr),
    Constant(RcStr),
    /// The default of a parameter of this name.
    ParameterDefault(RcStr, FunctionName),
    FieldDefault(MemberName),
    /// An item of an object of this type.
    Item(RcStr),
    Key(RcStr),
    Value(RcStr),
    Index(RcStr),
}

/// A sink: the place that a value flows into.
#[derive(Drop)]
pub enum Sink {
    /// The argument of a callee that takes arguments by position only.
    Argument(Callable),
    Return(FunctionName),
    /// The operand that `in` looks for, in an object of this type.
    Sought(RcStr),
    Holder(Holder),
}

/// A value that flows: its type, the type of the place where it goes, and that place.
#[derive(Drop)]
pub struct Flow {
    pub from: RcStr,
    pub into: RcStr,
    pub sink: Sink,
}

/// An operator with the types of its operands, the left one first.
#[derive(Drop)]
pub enum OperatorUse {
    Binary(BinaryOperator, RcStr, RcStr),
    Comparison(ComparisonOperator, RcStr, RcStr),
    Minus(RcStr),
}

/// A fact about an attribute that an object does not have, beside its absence.
#[derive(Drop)]
pub enum AttributeHint {
    Nothing,
    /// It is a method of lists or dicts, which can only be called.
    OnlyCalled,
    /// This class below has it.
    Below(RcStr),
}

/// The type of an object, and the types of its members that do not support the operation.
#[derive(Drop)]
pub struct Unsupported {
    pub object: RcStr,
    pub lacking: Vec<RcStr>,
}

/// An attribute that an object may not have.
#[derive(Drop)]
pub struct Attribute {
    pub of: Unsupported,
    pub name: RcStr,
    pub hint: AttributeHint,
}

/// The meaning of a name that is not a value.
#[derive(Drop)]
pub enum NoValue {
    Function(RcStr),
    Class(RcStr),
    Reserved(RcStr),
    Method(FunctionName),
}

/// The place where a name that means nothing here is bound elsewhere.
#[derive(Drop)]
pub enum Elsewhere {
    Nowhere,
    /// A member of the class around it.
    InClass(RcStr),
    /// A local of another function, at the place where it is bound.
    InFunction(FunctionName, Place),
    /// A header of the module would import it.
    NotImported,
}

/// A name or callee that an initializer uses too early.
#[derive(Drop)]
pub enum Early {
    Function(RcStr),
    /// A class or a constant, at the place of its name.
    Name(RcStr, Place),
    /// A callee that is no name.
    Callee,
}

/// The reason why an annotation is not a type.
#[derive(Drop)]
pub enum AnnotationFault {
    UnknownType(RcStr),
    /// A function or a constant, at the place of its name.
    NoType(RcStr, Place),
    /// A reserved name that is no type.
    ReservedNoType(RcStr),
    AnyNotImported,
    /// `list`, `dict` or `tuple` without the types in brackets that it needs.
    Bare(RcStr),
    TakesTypes(RcStr, Counts),
    /// A name that takes no types in brackets.
    TakesNone(RcStr),
    /// The type of a key that is neither `int` nor `str`.
    KeyType(RcStr),
}

/// The reason why parts do not make a union.
#[derive(Drop)]
pub enum Clash {
    NoMember(RcStr),
    /// Two of the same kind, or one that the other includes.
    Two(RcStr, RcStr),
}

/// The types of a part of two methods.
#[derive(Drop)]
pub struct OverrideTypes {
    pub above: RcStr,
    pub here: RcStr,
}

/// The part in which a method differs from the one that it overrides.
#[derive(Drop)]
pub enum OverrideFault {
    /// The numbers of parameters, first that of the method above.
    OtherCount(usize, usize),
    /// The position from 1, and the names, first that of the method above.
    OtherName(usize, RcStr, RcStr),
    NoDefault(RcStr),
    OtherReturn(OverrideTypes),
    /// The name of the parameter, and its types.
    OtherParameter(RcStr, OverrideTypes),
}

/// The earlier binding of a name that is repeated.
#[derive(Clone, Copy)]
pub enum Earlier {
    Item(Place),
    Parameter(Place),
    /// The parameter `self` of a method.
    Receiver,
    Argument(Place),
}

/// The reason why there is no function `main` without parameters.
#[derive(Clone, Copy)]
pub enum NoMain {
    NoSuchName,
    HasParameters(Place),
    IsNoFunction(Place),
}

/// A statement that leaves its suite.
#[derive(Clone, Copy)]
pub enum Leaving {
    Return,
    Break,
    Continue,
    If,
}

/// Two fields or two parameters: one without a default, after one with a default at this place.
#[derive(Drop)]
pub struct LateDefault {
    pub name: RcStr,
    pub before: RcStr,
    pub at: Place,
}

/// Types that do not fit: at an error what is wrong, at a dynamic place what cannot be told.
#[derive(Drop)]
pub enum TypeFault {
    /// `E12`, `A1`.
    Flow(Flow),
    /// `E13`, `A2`.
    Operator(OperatorUse),
    /// `E14`, `A6`.
    Call(Callable, Misfit),
    /// `E15`, `A4`.
    Attribute(Attribute),
    /// `E16`, `A3`: the object, and the type of the index.
    Index(Unsupported, RcStr),
    /// `E17`, `A3`.
    Store(Unsupported),
    /// `E18`, `A5`.
    Iterate(Unsupported),
    /// `A5`: a loop over a call of `range` that does not suit.
    IterateRange(Misfit),
    /// `E19`, `A2`: the type of the left operand, and the right one.
    Contain(RcStr, Unsupported),
    /// `E27`, `A6`: the operand of `len`.
    Length(Unsupported),
    /// `A7`: the local, and its type.
    ListTest(RcStr, RcStr),
    /// `E11`, `A8`: the method that is overridden, the place of its name, and the part that differs.
    Override(FunctionName, Place, OverrideFault),
}

/// The fault against a rule that no type decides alone; of errors only.
#[derive(Drop)]
pub enum RuleFault {
    /// `E20`.
    NotAValue(NoValue),
    /// `E21`: the function, and the type that it promises.
    NoReturn(FunctionName, RcStr),
    /// `E22`: different types of keys, in order.
    Keys(Vec<RcStr>),
    /// `E23`.
    MethodStore(FunctionName),
    /// `E25`: the name that the test is for, if it is one.
    NoTest(Option<RcStr>),
    /// `E26`: the number of nodes of the type.
    Size(usize),
    /// `E27`.
    RangeElsewhere,
    /// `E01`.
    Twice(RcStr, Earlier),
    /// `E02`.
    UnknownName(RcStr, Elsewhere),
    /// `E03`.
    Early(Early),
    /// `E04`: the local, and some places where it is bound.
    Unassigned(RcStr, Vec<Place>),
    /// `E05`: the keyword.
    OutsideLoop(Leaving),
    /// `E06`: the member above or before, and the place of its name.
    Member(MemberName, Place),
    /// `E07`: the name, and the place of a later class of this name, if there is one.
    Base(RcStr, Option<Place>),
    /// `E08`: the fields, and the class of the one with a default.
    FieldOrder(LateDefault, RcStr),
    /// `E09`.
    Annotation(AnnotationFault),
    /// `E10`.
    Union(Clash),
    /// `E24`: the local, and the place of its earlier binding; none for `self`.
    LateAnnotation(RcStr, Option<Place>),
    /// `E28`.
    Main(NoMain),
    /// `E29`.
    Reserved(RcStr),
    /// `E30`: the statement after which none is reached, and its place.
    Unreachable(Leaving, Place),
    /// `E31`.
    DefaultOrder(LateDefault),
}

/// The reason for a finding, with its types, names and places.
#[derive(Drop)]
pub enum Detail {
    Types(TypeFault),
    Rule(RuleFault),
}
