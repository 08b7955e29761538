//! The names in expressions and annotations.

ghost use Rattle.std.specs.Prelude.{◌≡◌, ◌++◌, map, OnOk};
ghost use Rattle.pc_tree.specs.Tree.{expr_of, option_expr_of, ann_of, option_ann_of};
ghost use Rattle.pc_tree.specs.Lists.{exprs_of_list, entries_of_list, keywords_of_list};
ghost use Rattle.pc_bindings.specs.Mentions.{in_expr, in_exprs, in_entries, in_values, in_option, in_ann, in_anns};
ghost use Rattle.pc_bindings.specs.Mentions.{in_option_ann};
ghost use Rattle.pc_bindings.specs.Written.{scope_of, mention_of, anns_of_list};

use crate::mention::{Mention, Scope, add_attribute, add_name};
use pc_source::OutOfMemory;
use pc_tree::{Ann, Entry, Expr, KeywordArgument};

/// Adds the names in an expression, in text order.
#[cycle(expression)]
pub fn add_in_expr<'m>(
    mentions: &mut Vec<Mention<'m>>,
    scope: Scope<'m>,
    e: &'m Expr,
) -> Result<(), OutOfMemory>
    ensures { OnOk result (map mention_of mentions.new.items
        ≡ map mention_of mentions.old.items ++ in_expr (scope_of scope.entry) (expr_of e.now)) }
{
    match e {
        Expr::Name(name) => add_name(mentions, scope, name),
        Expr::Int(_, _) | Expr::Str(_, _) => Ok(()),
        Expr::True(_) | Expr::False(_) | Expr::NoneValue(_) => Ok(()),
        Expr::Tuple(_, items) => add_in_exprs(mentions, scope, items),
        Expr::List(_, items) => add_in_exprs(mentions, scope, items),
        Expr::Dict(_, entries) => add_in_entries(mentions, scope, entries),
        Expr::Negative(_, operand) | Expr::Not(_, operand) => add_in_expr(mentions, scope, operand),
        Expr::Binary { left, right, .. } => {
            add_in_expr(mentions, scope, left)?;
            add_in_expr(mentions, scope, right)
        }
        Expr::Compare { left, right, .. } => {
            add_in_expr(mentions, scope, left)?;
            add_in_expr(mentions, scope, right)
        }
        Expr::IsNone(_, operand) | Expr::IsNotNone(_, operand) => add_in_expr(
            mentions, scope, operand,
        ),
        Expr::And { left, right, .. }
        | Expr::Or { left, right, .. }
        | Expr::Index {
            object: left,
            key: right,
            ..
        } => {
            add_in_expr(mentions, scope, left)?;
            add_in_expr(mentions, scope, right)
        }
        Expr::Attribute {
            object,
            name: field,
            ..
        } => {
            add_in_expr(mentions, scope, object)?;
            add_attribute(mentions, scope, object, field)
        }
        Expr::Call {
            callee,
            arguments,
            keywords: by_name,
            ..
        } => {
            add_in_expr(mentions, scope, callee)?;
            add_in_exprs(mentions, scope, arguments)?;
            add_in_values(mentions, scope, by_name)
        }
    }
}

/// Adds the names in several expressions.
#[cycle(expression)]
fn add_in_exprs<'m>(
    mentions: &mut Vec<Mention<'m>>,
    scope: Scope<'m>,
    items: &'m [Expr],
) -> Result<(), OutOfMemory>
    ensures { OnOk result (map mention_of mentions.new.items
        ≡ map mention_of mentions.old.items ++ in_exprs (scope_of scope.entry) (exprs_of_list items.now)) }
{
    for item in items {
        add_in_expr(mentions, scope, item)?;
    }
    Ok(())
}

/// Adds the names in the keys and values of a dict display.
#[cycle(expression)]
fn add_in_entries<'m>(
    mentions: &mut Vec<Mention<'m>>,
    scope: Scope<'m>,
    entries: &'m [Entry],
) -> Result<(), OutOfMemory>
    ensures { OnOk result (map mention_of mentions.new.items
        ≡ map mention_of mentions.old.items ++ in_entries (scope_of scope.entry) (entries_of_list entries.now)) }
{
    for entry in entries {
        add_in_expr(mentions, scope, &entry.key)?;
        add_in_expr(mentions, scope, &entry.value)?;
    }
    Ok(())
}

/// Adds the names in the values of arguments by name.
#[cycle(expression)]
fn add_in_values<'m>(
    mentions: &mut Vec<Mention<'m>>,
    scope: Scope<'m>,
    by_name: &'m [KeywordArgument],
) -> Result<(), OutOfMemory>
    ensures { OnOk result (map mention_of mentions.new.items
        ≡ map mention_of mentions.old.items ++ in_values (scope_of scope.entry) (keywords_of_list by_name.now)) }
{
    for argument in by_name {
        add_in_expr(mentions, scope, &argument.value)?;
    }
    Ok(())
}

/// Adds the names in an expression that may be missing.
pub fn add_in_option<'m>(
    mentions: &mut Vec<Mention<'m>>,
    scope: Scope<'m>,
    e: &'m Option<Box<Expr>>,
) -> Result<(), OutOfMemory>
    ensures { OnOk result (map mention_of mentions.new.items
        ≡ map mention_of mentions.old.items ++ in_option (scope_of scope.entry) (option_expr_of e.now)) }
{
    match e {
        Some(e) => add_in_expr(mentions, scope, e),
        None => Ok(()),
    }
}

/// Adds the names in an annotation, in text order.
#[cycle(annotation)]
pub fn add_in_ann<'m>(mentions: &mut Vec<Mention<'m>>, ann: &'m Ann) -> Result<(), OutOfMemory>
    ensures { OnOk result (map mention_of mentions.new.items
        ≡ map mention_of mentions.old.items ++ in_ann (ann_of ann.now)) }
{
    match ann {
        Ann::Name(name) => add_name(mentions, Scope::Module, name),
        Ann::NoneValue(_) => Ok(()),
        Ann::Apply {
            head,
            arguments,
            ..
        } => {
            add_name(mentions, Scope::Module, head)?;
            add_in_anns(mentions, arguments)
        }
        Ann::ApplyEmpty(_, head) => add_name(mentions, Scope::Module, head),
        Ann::Union(_, parts) => add_in_anns(mentions, parts),
    }
}

/// Adds the names in several annotations.
#[cycle(annotation)]
fn add_in_anns<'m>(mentions: &mut Vec<Mention<'m>>, anns: &'m [Ann]) -> Result<(), OutOfMemory>
    ensures { OnOk result (map mention_of mentions.new.items
        ≡ map mention_of mentions.old.items ++ in_anns (anns_of_list anns.now)) }
{
    for ann in anns {
        add_in_ann(mentions, ann)?;
    }
    Ok(())
}

/// Adds the names in an annotation that may be missing.
pub fn add_in_option_ann<'m>(
    mentions: &mut Vec<Mention<'m>>,
    ann: &'m Option<Ann>,
) -> Result<(), OutOfMemory>
    ensures { OnOk result (map mention_of mentions.new.items
        ≡ map mention_of mentions.old.items ++ in_option_ann (option_ann_of ann.now)) }
{
    match ann {
        Some(ann) => add_in_ann(mentions, ann),
        None => Ok(()),
    }
}
