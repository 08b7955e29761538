//! Operators, by the tokens that begin them.
ghost use Rattle.std.specs.Prelude.{◌≡◌, Some};
ghost use Rattle.pc_grammar.specs.Machine.Kinds.{follow_of};
ghost use Rattle.pc_grammar.specs.Machine.Expressions.{own_of_link, left_of_link, right_of};
ghost use Rattle.pc_reader.specs.Internal.Operands.{infix_of};
ghost use Rattle.pc_reader.specs.declared.operand.Infix.TheVariants as infix_is;
ghost use Rattle.pc_reader.specs.declared.link.Link.TheVariants as link_is;
ghost use Rattle.pc_reader.specs.Internal.Links.{Linked, link_view};

use crate::operand::Infix;
use pc_token::{Keyword, Operator, TokenKind};
use pc_tree::{BinaryOperator, ComparisonOperator};

/// The beginning of an operator: the operator itself, the `not` of `not in`, or the `is` of `is None`.
#[derive(Clone, Copy)]
pub(crate) enum Link {
    Infix(Infix),
    Not,
    Is,
}

/// Returns an arithmetic operator as the beginning of one.
fn arithmetic(operator: BinaryOperator) -> Option<Link>
    ensures { result ≡ Some (link_is.Infix (infix_is.Arithmetic operator)) }
{
    Some(Link::Infix(Infix::Arithmetic(operator)))
}

/// Returns a comparison as the beginning of an operator.
fn comparison(operator: ComparisonOperator) -> Option<Link>
    ensures { result ≡ Some (link_is.Infix (infix_is.Comparison operator)) }
{
    Some(Link::Infix(Infix::Comparison(operator)))
}

/// Returns the operator that a token of this kind begins, if it begins one.
pub(crate) fn link_of(kind: TokenKind) -> Option<Link>
    ensures { Linked (follow_of kind) result }
{
    match kind {
        TokenKind::Operator(Operator::Plus) => arithmetic(BinaryOperator::Add),
        TokenKind::Operator(Operator::Minus) => arithmetic(BinaryOperator::Sub),
        TokenKind::Operator(Operator::Star) => arithmetic(BinaryOperator::Mul),
        TokenKind::Operator(Operator::DoubleSlash) => arithmetic(BinaryOperator::FloorDiv),
        TokenKind::Operator(Operator::Percent) => arithmetic(BinaryOperator::Mod),
        TokenKind::Operator(Operator::EqualEqual) => comparison(ComparisonOperator::Equal),
        TokenKind::Operator(Operator::NotEqual) => comparison(ComparisonOperator::NotEqual),
        TokenKind::Operator(Operator::Less) => comparison(ComparisonOperator::Less),
        TokenKind::Operator(Operator::LessEqual) => comparison(ComparisonOperator::LessEqual),
        TokenKind::Operator(Operator::Greater) => comparison(ComparisonOperator::Greater),
        TokenKind::Operator(Operator::GreaterEqual) => comparison(ComparisonOperator::GreaterEqual),
        TokenKind::Keyword(Keyword::In) => comparison(ComparisonOperator::In),
        TokenKind::Keyword(Keyword::And) => Some(Link::Infix(Infix::And)),
        TokenKind::Keyword(Keyword::Or) => Some(Link::Infix(Infix::Or)),
        TokenKind::Keyword(Keyword::Not) => Some(Link::Not),
        TokenKind::Keyword(Keyword::Is) => Some(Link::Is),
        _ => None,
    }
}

impl Infix {
    /// Returns the level that the right operand must have.
    pub(crate) fn right(self) -> u8
        ensures { result ≡ right_of (infix_of self) }
    {
        match self {
            Infix::Arithmetic(BinaryOperator::Add | BinaryOperator::Sub) => 5,
            Infix::Arithmetic(_) => 6,
            Infix::Comparison(_) => 4,
            Infix::And => 2,
            Infix::Or => 1,
        }
    }
}

impl Link {
    /// Returns the level of the node that the operator makes.
    pub(crate) fn level(self) -> u8
        ensures { result ≡ own_of_link (link_view self) }
    {
        match self {
            Link::Infix(infix) => infix.level(),
            Link::Not | Link::Is => 3,
        }
    }

    /// Returns the level that the left operand must have.
    pub(crate) fn left(self) -> u8
        ensures { result ≡ left_of_link (link_view self) }
    {
        match self {
            Link::Infix(Infix::Comparison(_)) | Link::Not | Link::Is => 4,
            Link::Infix(infix) => infix.level(),
        }
    }
}
