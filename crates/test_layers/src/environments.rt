//! Environments of locals, by `pc_flow`: where two paths join, at loop heads, after assignments, by conditions.
ghost use Rattle.std.specs.Prelude.{◌≡◌, IfOk, length};
ghost use Rattle.pc_scope.specs.ModuleScopes.{AreScopes};
ghost use Rattle.pc_annotations.specs.ModuleOutlines.{module_in};
ghost use Rattle.pc_types.specs.Boxed.{IsGiven, tree_of};
ghost use Rattle.pc_flow.specs.Stored.{HasEach, env_of, declared_of};
ghost use Rattle.pc_flow.specs.WellFormed.{IsWellFormedEnv, AreWellFormed};

use crate::conditions::condition_in;
use crate::junctions::narrowed_by_parts;
use crate::locals::{Environment, assigned, declared_types, env_text, function, numbers};
use pc_annotations::{ModuleOutline, parents_of, type_text};
use pc_flow::{
    Declarations, Env, OwnerNames, assigned_type, copy_env, join_env, join_env_onto,
    join_or_object, loop_head, narrow_false, narrow_simple, narrow_true,
};
use pc_front::read_module;
use pc_scope::{Owner, scopes};
use pc_source::{Fault, OutOfMemory};
use pc_tree::{Code, Expr, FuncDef, Module};
use pc_types::{BoxStore, BoxType};
use std::alloc::{AllocError, Global};

/// The start of a row that narrows by a condition other than `not`, `and` or `or`.
const SIMPLY: &str = "simple ";

/// The start of a row that narrows by an `and` or `or` of two such conditions, each narrowed by itself.
const BY_PARTS: &str = "parts ";

/// Returns the environment where the two paths of a row join (`join`), or the second one joined onto the first (`onto`)
/// with the numbers of the locals where a second join could still change something.
fn met_text(
    row: &Environment,
    alloc: Global,
    words: &str,
    one: Env<BoxType>,
    other: &Env<BoxType>,
) -> Result<String, Fault>
    requires scopes { AreScopes (module_in row.now.outline.now) row.now.outline.now.scopes.now }
    requires one { HasEach IsGiven one }
    requires locals { length one ≡ 3 }
    requires other { HasEach IsGiven other.now }
{
    let declared = declared_types(row, alloc)?;
    let names = OwnerNames {
        scopes: row.outline.scopes,
        owner: Owner::Func(0),
    };
    let declarations = Declarations {
        parents: row.outline.parents,
        declared: &declared,
        names: &names,
    };
    met_with(row, alloc, words, &declarations, one, other)
}

/// Returns the text of the join of two environments, with these declarations: by `join_env` if the words are `join`,
/// else by `join_env_onto`, with the unsettled locals.
#[tactic(auto, using(crate::proofs::HeldLocals::all_taken_in))]
fn met_with(
    row: &Environment,
    alloc: Global,
    words: &str,
    declarations: &Declarations<'_, BoxType>,
    one: Env<BoxType>,
    other: &Env<BoxType>,
) -> Result<String, Fault>
    requires declared { HasEach IsGiven declarations.now.declared.now }
    requires one { HasEach IsGiven one }
    requires locals { length one ≡ 3 }
    requires other { HasEach IsGiven other.now }
{
    let mut store = BoxStore::new();
    if words == "join" {
        let env = join_env(&mut store, alloc, declarations, &one, other)?;
        return env_text(row, alloc, &env);
    }
    let met = join_env_onto(&mut store, alloc, declarations, &[0, 1, 2], one, other)?;
    let mut out = env_text(row, alloc, &met.env)?;
    write!(out, "; {:?}", met.unsettled)?;
    Ok(out)
}

/// Returns the environment after a row: at the head of a loop that binds the locals among its words (`loop`), or a
/// copy.
fn known(
    row: &Environment,
    alloc: Global,
    words: &str,
    one: &Env<BoxType>,
) -> Result<Env<BoxType>, Fault>
    requires scopes { AreScopes (module_in row.now.outline.now) row.now.outline.now.scopes.now }
    requires one { HasEach IsGiven one.now }
    ensures { IfOk result (λ e. HasEach IsGiven e) }
{
    let mut store = BoxStore::new();
    if words.starts_with("loop") {
        let declared = declared_types(row, alloc)?;
        let bound = numbers(row, alloc, words)?;
        return Ok(loop_head(&mut store, alloc, &bound, &declared, one)?);
    }
    Ok(copy_env(&store, alloc, one)?)
}

/// Narrows an environment by a condition that is true or false; unchanged for `not`, `and` and `or`.
fn narrowed_simply(
    alloc: Global,
    declarations: &Declarations<'_, BoxType>,
    condition: &Expr,
    holds: bool,
    env: Env<BoxType>,
) -> Result<Env<BoxType>, OutOfMemory>
    requires env { HasEach IsGiven env }
    requires well_formed { IsWellFormedEnv declarations.now.parents.now (env_of tree_of env) }
    ensures { IfOk result (λ e. HasEach IsGiven e) }
{
    match condition {
        Expr::Not(_, _) | Expr::And { .. } | Expr::Or { .. } => Ok(env),
        _ => {
            let ways = narrow_simple(&mut BoxStore::new(), alloc, declarations, condition, env)?;
            if holds {
                Ok(ways.where_true)
            } else {
                Ok(ways.where_false)
            }
        }
    }
}

/// Narrows an environment by a condition, in the manner that the words of a row name.
fn narrowed_by(
    alloc: Global,
    declarations: &Declarations<'_, BoxType>,
    words: &str,
    condition: &Expr,
    env: Env<BoxType>,
) -> Result<Env<BoxType>, OutOfMemory>
    requires declared { HasEach IsGiven declarations.now.declared.now }
    requires declared_well_formed { AreWellFormed declarations.now.parents.now
        (declared_of tree_of declarations.now.declared.now) }
    requires env { HasEach IsGiven env }
    requires well_formed { IsWellFormedEnv declarations.now.parents.now (env_of tree_of env) }
    ensures { IfOk result (λ e. HasEach IsGiven e) }
{
    if let Some(way) = words.strip_prefix(SIMPLY) {
        return narrowed_simply(alloc, declarations, condition, way.starts_with("true"), env);
    }
    if let Some(way) = words.strip_prefix(BY_PARTS) {
        return narrowed_by_parts(alloc, declarations, condition, way.starts_with("true"), env);
    }
    let mut store = BoxStore::new();
    if words.starts_with("true") {
        return narrow_true(&mut store, alloc, declarations, condition, env);
    }
    narrow_false(&mut store, alloc, declarations, condition, env)
}

/// Narrows an environment by the condition in the function of the locals, true or false as the row says.
#[tactic(auto, using(crate::proofs::HeldLocals::declared_well_formed))]
fn narrowed(
    row: &Environment,
    alloc: Global,
    words: &str,
    env: Env<BoxType>,
) -> Result<Env<BoxType>, Fault>
    requires scopes { AreScopes (module_in row.now.outline.now) row.now.outline.now.scopes.now }
    requires env { HasEach IsGiven env }
    requires well_formed { IsWellFormedEnv row.now.outline.now.parents.now (env_of tree_of env) }
    ensures { IfOk result (λ e. HasEach IsGiven e) }
{
    let Some(condition) = condition_in(row.declared) else {
        return Ok(env);
    };
    let declared = declared_types(row, alloc)?;
    let names = OwnerNames {
        scopes: row.outline.scopes,
        owner: Owner::Func(0),
    };
    let declarations = Declarations {
        parents: row.outline.parents,
        declared: &declared,
        names: &names,
    };
    Ok(narrowed_by(alloc, &declarations, words, condition, env)?)
}

/// Returns the finding of the flow in a row that assigns.
fn found_in(words: &str) -> Option<Code> {
    match words {
        "assign A1" => Some(Code::A1),
        "assign E12" => Some(Code::E12),
        _ => None,
    }
}

/// Returns the type of the first local, which is declared, after it is assigned its type on the first path.
fn assigned_text(
    row: &Environment,
    alloc: Global,
    words: &str,
    from: &Env<BoxType>,
) -> Result<String, Fault>
    requires scopes { AreScopes (module_in row.now.outline.now) row.now.outline.now.scopes.now }
    requires from { HasEach IsGiven from.now }
{
    let declared = declared_types(row, alloc)?;
    let (Some(into), Some(ty)) = (declared.declared(0), from.current(0)) else {
        return Ok(String::from_str(alloc, "no types")?);
    };
    let ty = assigned_type(&BoxStore::new(), alloc, into, ty, found_in(words))?;
    Ok(type_text(&BoxStore::new(), alloc, row.outline.tree, &ty)?)
}

/// Returns the join of the types of the first two locals, or `object`.
fn either_text(row: &Environment, alloc: Global, env: &Env<BoxType>) -> Result<String, Fault>
    requires { HasEach IsGiven env.now }
{
    let (Some(s), Some(t)) = (env.current(0), env.current(1)) else {
        return Ok(String::from_str(alloc, "no types")?);
    };
    let mut store = BoxStore::new();
    let ty = join_or_object(&mut store, alloc, row.outline.parents, s, t)?;
    Ok(type_text(&store, alloc, row.outline.tree, &ty)?)
}

/// Returns the condition of a row that narrows by one, after the word for true or false.
fn condition_of_row(words: &str) -> Option<&str> {
    let way = words.strip_prefix(SIMPLY).unwrap_or(words);
    let way = way.strip_prefix(BY_PARTS).unwrap_or(way);
    way.strip_prefix("true ")
        .or_else(|| way.strip_prefix("false "))
}

/// Returns the body of the function of the locals: an `if` with the condition of the row, if it has one.
fn body(alloc: Global, words: &str) -> Result<String, AllocError> {
    match condition_of_row(words) {
        Some(condition) => format!(in alloc; "    if {condition}:\n        pass\n"),
        None => String::from_str(alloc, "    pass\n"),
    }
}

/// Returns the answer to the words of a row and its two paths.
fn done(
    row: &Environment,
    alloc: Global,
    words: &str,
    one: &FuncDef,
    other: &FuncDef,
) -> Result<String, Fault>
    requires { AreScopes (module_in row.now.outline.now) row.now.outline.now.scopes.now }
{
    let one = assigned(row, alloc, one)?;
    if words.starts_with("assign") {
        return assigned_text(row, alloc, words, &one);
    }
    if words == "either" {
        return either_text(row, alloc, &one);
    }
    if condition_of_row(words).is_some() {
        let env = narrowed(row, alloc, words, one)?;
        return env_text(row, alloc, &env);
    }
    if words == "join" || words == "onto" {
        let other = assigned(row, alloc, other)?;
        return met_text(row, alloc, words, one, &other);
    }
    let env = known(row, alloc, words, &one)?;
    env_text(row, alloc, &env)
}

/// Returns the answer to the words of a row in a module with this outline.
fn done_in(alloc: Global, outline: &ModuleOutline, words: &str) -> Result<String, Fault>
    requires { AreScopes (module_in outline.now) outline.now.scopes.now }
{
    let (Some(declared), Some(one), Some(other)) = (
        function(outline.tree, "declared"),
        function(outline.tree, "one"),
        function(outline.tree, "other"),
    ) else {
        return Ok(String::from_str(alloc, "no functions")?);
    };
    let row = Environment { outline, declared };
    done(&row, alloc, words, one, other)
}

/// Returns the answer to the words of a row in a module.
fn reading_in(alloc: Global, tree: &Module, words: &str) -> Result<String, Fault> {
    let scopes = scopes(alloc, tree)?;
    let parents = parents_of(alloc, tree, &scopes)?;
    let outline = ModuleOutline {
        tree,
        scopes: &scopes,
        parents: &parents,
    };
    done_in(alloc, &outline, words)
}

/// Returns the answer to the words of a row in the module of this text.
fn reading(alloc: Global, text: &str, words: &str) -> Result<String, Fault> {
    let tree = read_module(alloc, text.as_bytes())?;
    reading_in(alloc, &tree, words)
}

/// Returns the answer to a row in a module that begins with the lines before it. The row has its words, the parameters
/// that declare its locals, and those assigned on two paths; without the first path the locals are as declared.
pub fn row_answer(alloc: Global, before: &str, row: &str) -> Result<String, Fault> {
    let (words, rest) = row.split_once(" ; ").unwrap_or((row, ""));
    let (declared, ways) = rest.split_once(" ; ").unwrap_or((rest, rest));
    let (one, other) = ways.split_once(" ; ").unwrap_or((ways, ""));
    let mut text = String::from_str(alloc, before)?;
    write!(text, "def declared({declared}):\n{}", body(alloc, words)?)?;
    for (name, params) in [("one", one), ("other", other), ("main", "")] {
        write!(text, "def {name}({params}):\n    pass\n")?;
    }
    text.push_str("main()\n")?;
    reading(alloc, text.as_str(), words)
}
