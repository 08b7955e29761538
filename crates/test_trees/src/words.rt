//! The words for the kinds of nodes.
use pc_tree::{BinaryOperator, ComparisonOperator, Expr, LiteralKind, StmtKind};

/// Returns the word for a binary operator.
fn word_of_binary(operator: BinaryOperator) -> &'static str {
    match operator {
        BinaryOperator::Add => "Add",
        BinaryOperator::Sub => "Sub",
        BinaryOperator::Mul => "Mul",
        BinaryOperator::FloorDiv => "FloorDiv",
        BinaryOperator::Mod => "Mod",
    }
}

/// Returns the word for an operator of comparison.
fn word_of_comparison(operator: ComparisonOperator) -> &'static str {
    match operator {
        ComparisonOperator::Equal => "Equal",
        ComparisonOperator::NotEqual => "NotEqual",
        ComparisonOperator::Less => "Less",
        ComparisonOperator::LessEqual => "LessEqual",
        ComparisonOperator::Greater => "Greater",
        ComparisonOperator::GreaterEqual => "GreaterEqual",
        ComparisonOperator::In => "In",
        ComparisonOperator::NotIn => "NotIn",
    }
}

/// Returns the word for the kind of an expression: of an operation, its operator.
pub fn word_of_expr(e: &Expr) -> &'static str {
    match e {
        Expr::Name(_) => "Name",
        Expr::Int(_, _) => "Int",
        Expr::Str(_, _) => "Str",
        Expr::True(_) => "True",
        Expr::False(_) => "False",
        Expr::NoneValue(_) => "None",
        Expr::Tuple(_, _) => "Tuple",
        Expr::List(_, _) => "List",
        Expr::Dict(_, _) => "Dict",
        Expr::Negative(_, _) => "Negative",
        Expr::Not(_, _) => "Not",
        Expr::Binary { operator, .. } => word_of_binary(*operator),
        Expr::Compare { operator, .. } => word_of_comparison(*operator),
        Expr::IsNone(_, _) => "IsNone",
        Expr::IsNotNone(_, _) => "IsNotNone",
        Expr::And { .. } => "And",
        Expr::Or { .. } => "Or",
        Expr::Attribute { .. } => "Attribute",
        Expr::Index { .. } => "Index",
        Expr::Call { .. } => "Call",
    }
}

/// Returns the word for the kind of a literal.
pub fn word_of_literal(kind: &LiteralKind) -> &'static str {
    match kind {
        LiteralKind::Int(_) => "Int",
        LiteralKind::NegativeInt(_) => "NegativeInt",
        LiteralKind::Str(_) => "Str",
        LiteralKind::True => "True",
        LiteralKind::False => "False",
        LiteralKind::NoneValue => "None",
    }
}

/// Returns the word for the kind of a statement.
pub fn word_of_stmt(kind: &StmtKind) -> &'static str {
    match kind {
        StmtKind::Pass => "Pass",
        StmtKind::Break => "Break",
        StmtKind::Continue => "Continue",
        StmtKind::Return(_) => "Return",
        StmtKind::Assert(_, _) => "Assert",
        StmtKind::Annotated { .. } => "Annotated",
        StmtKind::Assign(_, _) => "Assign",
        StmtKind::Expr(_) => "Expr",
        StmtKind::While(_, _) => "While",
        StmtKind::For { .. } => "For",
        StmtKind::If(_, _) => "If",
    }
}
