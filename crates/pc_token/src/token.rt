//! Tokens: keywords, operators and other kinds.

use pc_source::Place;

/// The keywords of Python 3.12, Language Reference 2.3.1 "Keywords".
#[derive(Clone, Copy, Debug, PartialEq, Eq)]
pub enum Keyword {
    False,
    None,
    True,
    And,
    As,
    Assert,
    Async,
    Await,
    Break,
    Class,
    Continue,
    Def,
    Del,
    Elif,
    Else,
    Except,
    Finally,
    For,
    From,
    Global,
    If,
    Import,
    In,
    Is,
    Lambda,
    Nonlocal,
    Not,
    Or,
    Pass,
    Raise,
    Return,
    Try,
    While,
    With,
    Yield,
}

/// The operators and delimiters of Python 3.12, Language Reference 2.5 "Operators" and 2.6 "Delimiters". The profile
/// uses those up to `At`; the layout refuses a line with any other.
#[derive(Clone, Copy, Debug, PartialEq, Eq)]
pub enum Operator {
    /// `+`
    Plus,
    /// `-`
    Minus,
    /// `*`
    Star,
    /// `//`
    DoubleSlash,
    /// `%`
    Percent,
    /// `==`
    EqualEqual,
    /// `!=`
    NotEqual,
    /// `<`
    Less,
    /// `<=`
    LessEqual,
    /// `>`
    Greater,
    /// `>=`
    GreaterEqual,
    /// `=`
    Equal,
    /// `(`
    LeftParenthesis,
    /// `)`
    RightParenthesis,
    /// `[`
    LeftBracket,
    /// `]`
    RightBracket,
    /// `{`
    LeftBrace,
    /// `}`
    RightBrace,
    /// `,`
    Comma,
    /// `:`
    Colon,
    /// `.`
    Dot,
    /// `|`
    Bar,
    /// `->`
    Arrow,
    /// `@`
    At,
    /// `/`
    Slash,
    /// `**`
    DoubleStar,
    /// `&`
    Ampersand,
    /// `^`
    Circumflex,
    /// `~`
    Tilde,
    /// `<<`
    LeftShift,
    /// `>>`
    RightShift,
    /// `:=`
    ColonEqual,
    /// `+=`
    PlusEqual,
    /// `-=`
    MinusEqual,
    /// `*=`
    StarEqual,
    /// `/=`
    SlashEqual,
    /// `//=`
    DoubleSlashEqual,
    /// `%=`
    PercentEqual,
    /// `**=`
    DoubleStarEqual,
    /// `&=`
    AmpersandEqual,
    /// `|=`
    BarEqual,
    /// `^=`
    CircumflexEqual,
    /// `<<=`
    LeftShiftEqual,
    /// `>>=`
    RightShiftEqual,
    /// `@=`
    AtEqual,
    /// `;`
    Semicolon,
    /// `...`
    Ellipsis,
}

/// The kind of a token, Language Reference 2.1.7 "Lexical analysis: other tokens" and 2.1.8 "Indentation". A logical
/// line has tokens of the first five kinds; the layout adds the others.
#[derive(Clone, Copy, Debug, PartialEq, Eq)]
pub enum TokenKind {
    Name,
    /// A whole number.
    Int,
    /// A string, its quotes included.
    Str,
    Keyword(Keyword),
    Operator(Operator),
    /// The end of a logical line.
    Newline,
    /// The start of a suite.
    Indent,
    /// The end of a suite.
    Dedent,
    /// The end of the module, after the last line.
    End,
}

/// A token: its kind, its place, its spelling, and, for a name that is not ASCII, the normal form NFKC by which it is
/// compared, Language Reference 2.3 "Identifiers and keywords".
#[derive(Clone, Debug, Drop)]
pub struct Token<X> {
    pub kind: TokenKind,
    pub place: Place,
    pub text: X,
    pub form: Option<Box<String>>,
}

/// A token whose text is a slice of the source.
pub type TextToken<'a> = Token<&'a str>;

/// A logical line, Language Reference 2.1.1 "Logical lines": the number of spaces before its first token, and its
/// tokens, at least one.
#[derive(Debug, Drop)]
pub struct Line<'a> {
    pub column: usize,
    pub tokens: Vec<TextToken<'a>>,
}
