//! The tree of a module.

use crate::keys::Keys;
use crate::text::Text;
use pc_source::Place;

/// A name at its place, in normal form NFKC, by which names are compared. Language Reference 2.3 "Identifiers and
/// keywords".
#[derive(Debug, Drop)]
pub struct Name {
    pub place: Place,
    pub text: Text,
}

/// A module: whether it has the headers that import `dataclass` and `Any`, its items in text order, the place of `main`
/// in its last line, and the hash keys for its names.
#[derive(Debug, Drop)]
pub struct Module {
    pub imports_dataclass: bool,
    pub imports_any: bool,
    pub items: Vec<Item>,
    pub main: Place,
    pub keys: Keys,
}

/// A constant, a class or a function of the module, with the place of its first token.
#[derive(Debug, Drop)]
pub struct Item {
    pub first: Place,
    pub kind: ItemKind,
}

/// A constant, a class or a function.
#[derive(Debug, Drop)]
pub enum ItemKind {
    Constant(Constant),
    Class(ClassDef),
    Def(FuncDef),
}

/// A constant: a name, its annotation if it has one, and its initializer.
/// Language Reference 7.2 "Assignment statements".
#[derive(Debug, Drop)]
pub struct Constant {
    pub name: Name,
    pub annotation: Option<Ann>,
    pub value: Expr,
}

/// A dataclass: the place of the word `dataclass`, its name, its base if it names one, and its members,
/// none for `pass`. Language Reference 8.8 "Class definitions".
#[derive(Debug, Drop)]
pub struct ClassDef {
    pub decorator: Place,
    pub name: Name,
    pub base: Option<Name>,
    pub members: Vec<Member>,
}

/// A member of a class.
#[derive(Debug, Drop)]
pub enum Member {
    Field(Field),
    Method(FuncDef),
}

/// A field of a class: its name, its annotation, and its default if it has one.
#[derive(Debug, Drop)]
pub struct Field {
    pub name: Name,
    pub annotation: Ann,
    pub default: Option<Literal>,
}

/// A function, or a method without its `self`: its name, its parameters, its return annotation if it has one, and its
/// body, of at least one statement. Language Reference 8.7 "Function definitions".
#[derive(Debug, Drop)]
pub struct FuncDef {
    pub name: Name,
    pub params: Vec<Param>,
    pub returns: Option<Ann>,
    pub body: Vec<Stmt>,
}

/// A parameter: its name, its annotation and its default, if it has them.
#[derive(Debug, Drop)]
pub struct Param {
    pub name: Name,
    pub annotation: Option<Ann>,
    pub default: Option<Literal>,
}

/// A literal as a default value, at its place. Language Reference 2.4 "Literals".
#[derive(Debug, Drop)]
pub struct Literal {
    pub place: Place,
    pub kind: LiteralKind,
}

/// The value of a literal.
#[derive(Debug, Drop)]
pub enum LiteralKind {
    /// A whole number, as its digits without underscores.
    Int(String),
    /// `-` and a whole number.
    NegativeInt(String),
    /// A string, as its characters.
    Str(String),
    True,
    False,
    NoneValue,
}

/// A statement, with the place of its first token.
/// Language Reference 7 "Simple statements" and 8 "Compound statements".
#[derive(Debug, Drop)]
#[cycle(statement)]
pub struct Stmt {
    pub first: Place,
    pub kind: StmtKind,
}

/// A statement without its place.
#[derive(Debug, Drop)]
#[cycle(statement)]
pub enum StmtKind {
    Pass,
    Break,
    Continue,
    Return(Option<Box<Expr>>),
    /// `assert`, its condition, and its message if it has one.
    Assert(Box<Expr>, Option<Box<Expr>>),
    /// A name with its annotation, and the value assigned to it, if any.
    Annotated {
        target: Name,
        annotation: Box<Ann>,
        value: Option<Box<Expr>>,
    },
    Assign(Target, Box<Expr>),
    /// An expression as a statement.
    Expr(Expr),
    While(Box<Expr>, Vec<Stmt>),
    For {
        target: Name,
        iterable: Box<Expr>,
        body: Vec<Stmt>,
    },
    /// `if` and each `elif`, at least one branch, and the suite of `else`, which is empty if there is none.
    If(Vec<Branch>, Vec<Stmt>),
}

/// A condition, and the suite that runs if it is true.
#[derive(Debug, Drop)]
#[cycle(statement)]
pub struct Branch {
    pub condition: Expr,
    pub body: Vec<Stmt>,
}

/// The target of an assignment: a name, `e.f` or `e[i]`. Language Reference 7.2 "Assignment statements".
#[derive(Debug, Drop)]
pub enum Target {
    Name(Name),
    Attribute {
        place: Place,
        object: Box<Expr>,
        name: Name,
    },
    Index {
        place: Place,
        object: Box<Expr>,
        key: Box<Expr>,
    },
}

/// `+`, `-`, `*`, `//` and `%`. Language Reference 6.7 "Binary arithmetic operations".
#[derive(Clone, Copy, Debug, PartialEq, Eq)]
pub enum BinaryOperator {
    Add,
    Sub,
    Mul,
    FloorDiv,
    Mod,
}

/// `==`, `!=`, `<`, `<=`, `>`, `>=`, `in` and `not in`. Language Reference 6.10 "Comparisons".
#[derive(Clone, Copy, Debug, PartialEq, Eq)]
pub enum ComparisonOperator {
    Equal,
    NotEqual,
    Less,
    LessEqual,
    Greater,
    GreaterEqual,
    In,
    NotIn,
}

/// An expression. Each has its place, from its first to its last token, without parentheses around it.
/// Language Reference 6 "Expressions".
#[derive(Debug, Drop)]
#[cycle(expression)]
pub enum Expr {
    Name(Name),
    /// A whole number, as its digits without underscores.
    Int(Place, String),
    /// A string, as its characters.
    Str(Place, String),
    True(Place),
    False(Place),
    NoneValue(Place),
    Tuple(Place, Vec<Expr>),
    List(Place, Vec<Expr>),
    Dict(Place, Vec<Entry>),
    /// `-e`
    Negative(Place, Box<Expr>),
    Not(Place, Box<Expr>),
    Binary {
        place: Place,
        operator: BinaryOperator,
        left: Box<Expr>,
        right: Box<Expr>,
    },
    Compare {
        place: Place,
        operator: ComparisonOperator,
        left: Box<Expr>,
        right: Box<Expr>,
    },
    IsNone(Place, Box<Expr>),
    IsNotNone(Place, Box<Expr>),
    And {
        place: Place,
        left: Box<Expr>,
        right: Box<Expr>,
    },
    Or {
        place: Place,
        left: Box<Expr>,
        right: Box<Expr>,
    },
    /// `e.f`
    Attribute {
        place: Place,
        object: Box<Expr>,
        name: Name,
    },
    /// `e[i]`
    Index {
        place: Place,
        object: Box<Expr>,
        key: Box<Expr>,
    },
    /// A callee, its positional arguments, and its arguments by name.
    Call {
        place: Place,
        callee: Box<Expr>,
        arguments: Vec<Expr>,
        keywords: Vec<KeywordArgument>,
    },
}

/// A key and its value in a dict display.
#[derive(Debug, Drop)]
#[cycle(expression)]
pub struct Entry {
    pub key: Expr,
    pub value: Expr,
}

/// An argument by name.
#[derive(Debug, Drop)]
#[cycle(expression)]
pub struct KeywordArgument {
    pub name: Name,
    pub value: Expr,
}

/// An annotation, at its place. Typing specification, "Type annotations".
#[derive(Debug, Drop)]
pub enum Ann {
    Name(Name),
    NoneValue(Place),
    /// `N[A, ..]`
    Apply {
        place: Place,
        head: Name,
        arguments: Vec<Ann>,
    },
    /// `N[()]`
    ApplyEmpty(Place, Name),
    /// Two or more parts with `|` between them.
    Union(Place, Vec<Ann>),
}
