//! Operands, whose depth is counted as they are built.
ghost use Rattle.std.specs.Prelude.{◌≡◌, ◌+◌, ◌≤◌, ℕ, Bool, List, MatchResult, MatchOption, min, max, Some, None};
ghost use Rattle.std.specs.Prelude.{false};
ghost use Rattle.pc_source.specs.declared.fault.Fault.TheVariants as fault;
ghost use Rattle.pc_tree.specs.Tree.{attribute, index as index_tree, expr_of, name_of};
ghost use Rattle.pc_tree.specs.NamesAlone.{name_of_tree};
ghost use Rattle.pc_grammar.specs.Machine.Expressions.{infix_tree, prefix_tree, prefix_level, own_of};
ghost use Rattle.pc_grammar.specs.Machine.Finishing.{if_plain};
ghost use Rattle.pc_grammar.specs.Machine.States.{Part};
ghost use Rattle.pc_reader.specs.Internal.Operands.{KeepsPart, Builds, node_of, infix_of, prefix_of, none_tree};

use pc_source::{Fault, Place};
use pc_tree::{BinaryOperator, ComparisonOperator, Expr, Name};
use std::alloc::Global;
use std::cmp::min;

/// An expression that has been read, with the bytes from its first to its last token, including parentheses around it.
/// In one deeper than 64, parts are replaced by the expression `None`.
#[derive(Drop)]
pub struct Operand {
    /// The expression.
    pub expr: Expr,
    /// The byte where its first token begins.
    pub start: usize,
    /// The byte where its last token ends.
    pub end: usize,
    /// The byte where the expression itself begins, inside any parentheses.
    pub first: usize,
    /// Whether there are no parentheses around it.
    pub plain: bool,
    /// Its level of precedence, from 0, `or`, to 7, a name or a form with brackets.
    pub level: u8,
    /// Its depth, 65 if deeper than 64.
    pub depth: u8,
}

/// An operator between two operands.
#[derive(Clone, Copy)]
pub(crate) enum Infix {
    Arithmetic(BinaryOperator),
    Comparison(ComparisonOperator),
    And,
    Or,
}

impl Infix {
    /// Returns the level of the node that the operator makes.
    pub(crate) fn level(self) -> u8
        ensures { result ≡ own_of (infix_of self) }
    {
        match self {
            Infix::Arithmetic(BinaryOperator::Add | BinaryOperator::Sub) => 4,
            Infix::Arithmetic(_) => 5,
            Infix::Comparison(_) => 3,
            Infix::And => 1,
            Infix::Or => 0,
        }
    }

    /// Returns the node that the operator makes of its operands, at `place`.
    fn node(self, place: Place, left: Box<Expr>, right: Box<Expr>) -> Expr
        ensures { expr_of result ≡ infix_tree (infix_of self) (expr_of left.value) (expr_of right.value) place }
    {
        match self {
            Infix::Arithmetic(operator) => Expr::Binary {
                place,
                operator,
                left,
                right,
            },
            Infix::Comparison(operator) => Expr::Compare {
                place,
                operator,
                left,
                right,
            },
            Infix::And => Expr::And { place, left, right },
            Infix::Or => Expr::Or { place, left, right },
        }
    }
}

/// A sign before an operand: unary minus or `not`.
#[derive(Clone, Copy)]
pub(crate) enum Prefix {
    Minus,
    Not,
}

/// Returns the greater of two depths.
pub fn deeper(depth: u8, other: u8) -> u8
    ensures { result ≡ max depth other }
{
    if depth < other { other } else { depth }
}

/// Returns the depth of a node over a part of this depth, at most 65.
pub fn depth_above(depth: u8) -> u8
    requires { depth ≤ 65 }
    ensures { result ≡ min 65 (depth + 1) }
{
    min(65, depth + 1)
}

/// Returns the part of a node of this depth, or `None` in its place if the node is too deep.
#[inline(always)]
pub(crate) fn kept(depth: u8, part: Expr, place: Place) -> Expr
    ensures { depth ≤ 64 → result ≡ part }
{
    if depth > 64 {
        return Expr::NoneValue(place);
    }
    part
}

/// Returns an expression as an operand, without parentheses around it.
pub(crate) fn node(expr: Expr, place: Place, level: u8, depth: u8) -> Operand
    ensures { result ≡ node_of expr place level depth }
{
    Operand {
        expr,
        start: place.start,
        end: place.end,
        first: place.start,
        plain: true,
        level,
        depth,
    }
}

/// Joins two operands with the operator between them.
#[inline(always)]
pub(crate) fn join_operands(
    alloc: Global,
    operator: Infix,
    left: Operand,
    right: Operand,
) -> Result<Operand, Fault>
    requires left { left.depth ≤ 65 }
    requires right { right.depth ≤ 65 }
    ensures { MatchResult result
        (λ o. (o.level ≡ own_of (infix_of operator))
        × ((l r : Part) → KeepsPart left l → KeepsPart right r
        → Builds o (infix_tree (infix_of operator) l.tree r.tree) left.start right.end)) (λ e. e ≡ fault.OutOfMemory) }
{
    let place = Place {
        start: left.start,
        end: right.end,
    };
    let depth = depth_above(deeper(left.depth, right.depth));
    let first = Box::new(alloc, kept(depth, left.expr, place))?;
    let second = Box::new(alloc, kept(depth, right.expr, place))?;
    let expr = operator.node(place, first, second);
    Ok(node(expr, place, operator.level(), depth))
}

/// Applies a sign that begins at byte `start` to an operand.
pub(crate) fn wrap(
    alloc: Global,
    prefix: Prefix,
    start: usize,
    operand: Operand,
) -> Result<Operand, Fault>
    requires { operand.depth ≤ 65 }
    ensures { MatchResult result
        (λ o. (o.level ≡ prefix_level (prefix_of prefix))
        × ((p : Part) → KeepsPart operand p → Builds o (prefix_tree (prefix_of prefix) p.tree) start operand.end)
        × (o.depth ≤ 65)) (λ e. e ≡ fault.OutOfMemory) }
{
    let place = Place {
        start,
        end: operand.end,
    };
    let depth = depth_above(operand.depth);
    let inner = Box::new(alloc, kept(depth, operand.expr, place))?;
    match prefix {
        Prefix::Minus => Ok(node(Expr::Negative(place, inner), place, 6, depth)),
        Prefix::Not => Ok(node(Expr::Not(place, inner), place, 2, depth)),
    }
}

/// Returns the test that an operand is `None`, or is not if `negated`. It ends at byte `end`.
pub(crate) fn none_test(
    alloc: Global,
    operand: Operand,
    negated: bool,
    end: usize,
) -> Result<Operand, Fault>
    requires { operand.depth ≤ 65 }
    ensures { MatchResult result
        (λ o. (o.level ≡ 3) × ((p : Part) → KeepsPart operand p
        → Builds o (none_tree negated p.tree) operand.start end)) (λ e. e ≡ fault.OutOfMemory) }
{
    let place = Place {
        start: operand.start,
        end,
    };
    let depth = depth_above(operand.depth);
    let inner = Box::new(alloc, kept(depth, operand.expr, place))?;
    if negated {
        return Ok(node(Expr::IsNotNone(place, inner), place, 3, depth));
    }
    Ok(node(Expr::IsNone(place, inner), place, 3, depth))
}

/// Returns an attribute of an operand, up to byte `end`.
pub(crate) fn member(
    alloc: Global,
    operand: Operand,
    name: Name,
    end: usize,
) -> Result<Operand, Fault>
    requires { operand.depth ≤ 65 }
    ensures { MatchResult result
        (λ o. (o.level ≡ 7) × ((p : Part) → KeepsPart operand p
        → Builds o (λ q. attribute q p.tree (name_of name)) operand.start end)) (λ e. e ≡ fault.OutOfMemory) }
{
    let place = Place {
        start: operand.start,
        end,
    };
    let depth = depth_above(operand.depth);
    let inner = Box::new(alloc, kept(depth, operand.expr, place))?;
    Ok(node(
        Expr::Attribute {
            place,
            object: inner,
            name,
        },
        place,
        7,
        depth,
    ))
}

/// Returns an operand indexed by a key, up to byte `end`.
pub(crate) fn indexed(
    alloc: Global,
    operand: Operand,
    key: Operand,
    end: usize,
) -> Result<Operand, Fault>
    requires operand { operand.depth ≤ 65 }
    requires key { key.depth ≤ 65 }
    ensures { MatchResult result
        (λ o. (o.level ≡ 7) × ((p k : Part) → KeepsPart operand p → KeepsPart key k
        → Builds o (λ q. index_tree q p.tree k.tree) operand.start end)) (λ e. e ≡ fault.OutOfMemory) }
{
    let place = Place {
        start: operand.start,
        end,
    };
    let depth = depth_above(deeper(operand.depth, key.depth));
    let object = Box::new(alloc, kept(depth, operand.expr, place))?;
    let inner = Box::new(alloc, kept(depth, key.expr, place))?;
    Ok(node(
        Expr::Index {
            place,
            object,
            key: inner,
        },
        place,
        7,
        depth,
    ))
}

/// Returns an operand in parentheses, from byte `start` to byte `end`.
pub(crate) fn grouped(operand: Operand, start: usize, end: usize) -> Operand
    ensures { result ≡ record operand { start = start; end = end; plain = false; level = 7 } }
{
    Operand {
        expr: operand.expr,
        start,
        end,
        first: operand.first,
        plain: false,
        level: 7,
        depth: operand.depth,
    }
}

/// Returns the name that an operand is, if it is one without parentheses.
pub fn plain_name(operand: Operand) -> Option<Name>
    ensures { MatchOption result (if_plain operand.plain (name_of_tree (expr_of operand.expr)) ≡ None)
        (λ n. if_plain operand.plain (name_of_tree (expr_of operand.expr)) ≡ Some (name_of n)) }
{
    if !operand.plain {
        return None;
    }
    match operand.expr {
        Expr::Name(name) => Some(name),
        _ => None,
    }
}
