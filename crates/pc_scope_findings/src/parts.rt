//! A search through an expression and its parts.
#![tactic(auto, using(crate::proofs::Seeking::sought_both, pc_tree::proofs::Finds::at_both))]

ghost use Rattle.std.specs.Prelude.{◌≡◌, ◌++◌, ◌&&◌, OnOk};
ghost use Rattle.pc_tree.specs.declared.code.Code.TheVariants.{E02, E03};
ghost use Rattle.pc_tree.specs.Tree.{expr_of};
ghost use Rattle.pc_tree.specs.Lists.{exprs_of_list, entries_of_list, keywords_of_list};
ghost use Rattle.pc_tree.specs.NamesAlone.{name_of_tree};
ghost use Rattle.pc_tree.specs.Code.{at_code};
ghost use Rattle.pc_scope.specs.declared.resolution.Owner.TheVariants as owners;
ghost use Rattle.pc_scope.specs.Expressions.{parts_in, parts_in_entries, parts_in_keywords, is_name};
ghost use Rattle.pc_scope.specs.Expressions.{is_instance_test, other_callee};
ghost use Rattle.pc_scope.specs.Tables.{meaning_by_tables};
ghost use Rattle.pc_scope_findings.specs.Internal.FindingLists.{means_nothing, is_early_meaning, unknown_at, early_at};
ghost use Rattle.pc_scope_findings.specs.Internal.FindingLists.{callee_at};
ghost use Rattle.pc_scope_findings.specs.Internal.SoughtParts.{is_judged, sought_at, sought_among, some_parts};
ghost use Rattle.pc_scope_findings.specs.Internal.SoughtParts.{inner_parts};

use pc_scope::{NameMeaning, Owner, Scopes, is_instance_test};
use pc_source::OutOfMemory;
use pc_tree::{Code, Entry, Expr, Findings, KeywordArgument, find, find_if};

/// The aim of a search through the parts of an expression.
#[derive(Clone, Copy, PartialEq, Eq, Debug)]
pub enum Sought {
    /// Names that mean nothing to this owner.
    Unknown(Owner),
    /// Names that an initializer after this many constants and classes may not use, and callees that are not names.
    Early(usize, usize),
}

impl Sought {
    /// Returns whether the search skips the second argument of an `isinstance` test.
    fn is_judged(self) -> bool
        ensures { result ≡ is_judged self }
    {
        match self {
            Sought::Unknown(_) => true,
            Sought::Early(_, _) => false,
        }
    }
}

/// Returns whether a name means nothing.
fn is_nothing(meaning: NameMeaning) -> bool
    ensures { result ≡ means_nothing meaning }
{
    matches!(meaning, NameMeaning::None)
}

/// Returns whether an initializer after this many constants and classes may not use a name of this meaning.
fn is_early(constants: usize, classes: usize, meaning: NameMeaning) -> bool
    ensures { result ≡ is_early_meaning constants classes meaning }
{
    match meaning {
        NameMeaning::Func(_) => true,
        NameMeaning::Const(constant) => constants <= constant,
        NameMeaning::Class(class) => classes <= class,
        NameMeaning::Local(_) => false,
        NameMeaning::Builtin(_) => false,
        NameMeaning::None => false,
    }
}

/// Returns whether an expression is a name.
fn is_name(e: &Expr) -> bool
    ensures { result ≡ is_name (expr_of e.now) }
{
    matches!(e, Expr::Name(_))
}

/// Returns whether a search skips the second argument of this call, since it is an `isinstance` test.
fn passes_over(
    sought: Sought,
    callee: &Expr,
    arguments: &[Expr],
    by_name: &[KeywordArgument],
) -> bool
    ensures { result ≡ (is_judged sought
        && is_instance_test (expr_of callee.now) (exprs_of_list arguments.now) (keywords_of_list by_name.now)) }
{
    sought.is_judged() && is_instance_test(callee, arguments, by_name)
}

/// Adds E02 if an expression is a name that means nothing to its owner.
fn find_unknown_at(
    found: &mut Findings,
    scopes: &Scopes,
    owner: Owner,
    e: &Expr,
) -> Result<(), OutOfMemory>
    ensures { OnOk result (found.new.items
        ≡ found.old.items ++ at_code E02
        (unknown_at (meaning_by_tables scopes.now.tables owner) (name_of_tree (expr_of e.now)))) }
{
    let Expr::Name(name) = e else {
        return Ok(());
    };
    let meaning = scopes.resolve(owner, name.text.as_str());
    find_if(found, is_nothing(meaning), Code::E02, name.place)
}

/// Adds E03 if an expression is a name that an initializer after this many constants and classes may not use.
fn find_early_at(
    found: &mut Findings,
    scopes: &Scopes,
    constants: usize,
    classes: usize,
    e: &Expr,
) -> Result<(), OutOfMemory>
    ensures { OnOk result (found.new.items
        ≡ found.old.items ++ at_code E03
        (early_at constants classes (meaning_by_tables scopes.now.tables owners.Module)
        (name_of_tree (expr_of e.now)))) }
{
    let Expr::Name(name) = e else {
        return Ok(());
    };
    let meaning = scopes.resolve(Owner::Module, name.text.as_str());
    find_if(
        found,
        is_early(constants, classes, meaning),
        Code::E03,
        name.place,
    )
}

/// Adds E03 if an expression is a call whose callee is not a name.
fn find_other_callee(found: &mut Findings, e: &Expr) -> Result<(), OutOfMemory>
    ensures { OnOk result (found.new.items
        ≡ found.old.items ++ at_code E03 (callee_at (other_callee (expr_of e.now)))) }
{
    let Expr::Call { callee, .. } = e else {
        return Ok(());
    };
    if is_name(callee) {
        return Ok(());
    }
    find(found, Code::E03, callee.place())
}

/// Adds the findings of a search at an expression without its parts.
fn seek_at(
    found: &mut Findings,
    scopes: &Scopes,
    sought: Sought,
    e: &Expr,
) -> Result<(), OutOfMemory>
    ensures { OnOk result (found.new.items ≡ found.old.items ++ sought_at scopes.now.tables sought (expr_of e.now)) }
{
    match sought {
        Sought::Unknown(owner) => find_unknown_at(found, scopes, owner, e),
        Sought::Early(constants, classes) => {
            find_early_at(found, scopes, constants, classes, e)?;
            find_other_callee(found, e)
        }
    }
}

/// Adds the findings of a search in an expression and its parts.
#[cycle(parts)]
pub fn seek(
    found: &mut Findings,
    scopes: &Scopes,
    sought: Sought,
    e: &Expr,
) -> Result<(), OutOfMemory>
    ensures { OnOk result (found.new.items
        ≡ found.old.items ++ sought_among scopes.now.tables sought (parts_in (is_judged sought) (expr_of e.now))) }
{
    seek_at(found, scopes, sought, e)?;
    seek_inside(found, scopes, sought, e)
}

/// Adds the findings of a search in the parts of an expression.
#[cycle(parts)]
fn seek_inside(
    found: &mut Findings,
    scopes: &Scopes,
    sought: Sought,
    e: &Expr,
) -> Result<(), OutOfMemory>
    ensures { OnOk result (found.new.items
        ≡ found.old.items ++ sought_among scopes.now.tables sought (inner_parts (is_judged sought) (expr_of e.now))) }
{
    match e {
        Expr::Name(_) | Expr::Int(_, _) | Expr::Str(_, _) => Ok(()),
        Expr::True(_) | Expr::False(_) | Expr::NoneValue(_) => Ok(()),
        Expr::Tuple(_, items) => seek_all(found, scopes, sought, false, items),
        Expr::List(_, items) => seek_all(found, scopes, sought, false, items),
        Expr::Dict(_, entries) => seek_entries(found, scopes, sought, entries),
        Expr::Negative(_, operand) => seek(found, scopes, sought, operand),
        Expr::Not(_, operand) => seek(found, scopes, sought, operand),
        Expr::IsNone(_, operand) => seek(found, scopes, sought, operand),
        Expr::IsNotNone(_, operand) => seek(found, scopes, sought, operand),
        Expr::Attribute { object, .. } => seek(found, scopes, sought, object),
        Expr::Binary { left, right, .. } => {
            seek(found, scopes, sought, left)?;
            seek(found, scopes, sought, right)
        }
        Expr::Compare { left, right, .. } => {
            seek(found, scopes, sought, left)?;
            seek(found, scopes, sought, right)
        }
        Expr::And { left, right, .. }
        | Expr::Or { left, right, .. }
        | Expr::Index {
            object: left,
            key: right,
            ..
        } => {
            seek(found, scopes, sought, left)?;
            seek(found, scopes, sought, right)
        }
        Expr::Call {
            callee,
            arguments,
            keywords: by_name,
            ..
        } => {
            seek(found, scopes, sought, callee)?;
            let first_alone = passes_over(sought, callee, arguments, by_name);
            seek_all(found, scopes, sought, first_alone, arguments)?;
            seek_values(found, scopes, sought, by_name)
        }
    }
}

/// Adds the findings of a search in several expressions and their parts, or in the first alone.
#[cycle(parts)]
fn seek_all(
    found: &mut Findings,
    scopes: &Scopes,
    sought: Sought,
    first_alone: bool,
    items: &[Expr],
) -> Result<(), OutOfMemory>
    ensures { OnOk result (found.new.items
        ≡ found.old.items ++ sought_among scopes.now.tables sought
        (some_parts (is_judged sought) first_alone (exprs_of_list items.now))) }
{
    for item in items {
        seek(found, scopes, sought, item)?;
        if first_alone {
            return Ok(());
        }
    }
    Ok(())
}

/// Adds the findings of a search in the keys and values of a dict display and their parts.
#[cycle(parts)]
fn seek_entries(
    found: &mut Findings,
    scopes: &Scopes,
    sought: Sought,
    entries: &[Entry],
) -> Result<(), OutOfMemory>
    ensures { OnOk result (found.new.items
        ≡ found.old.items ++ sought_among scopes.now.tables sought
        (parts_in_entries (is_judged sought) (entries_of_list entries.now))) }
{
    for entry in entries {
        seek(found, scopes, sought, &entry.key)?;
        seek(found, scopes, sought, &entry.value)?;
    }
    Ok(())
}

/// Adds the findings of a search in the values of keyword arguments and their parts.
#[cycle(parts)]
fn seek_values(
    found: &mut Findings,
    scopes: &Scopes,
    sought: Sought,
    by_name: &[KeywordArgument],
) -> Result<(), OutOfMemory>
    ensures { OnOk result (found.new.items
        ≡ found.old.items ++ sought_among scopes.now.tables sought
        (parts_in_keywords (is_judged sought) (keywords_of_list by_name.now))) }
{
    for argument in by_name {
        seek(found, scopes, sought, &argument.value)?;
    }
    Ok(())
}
