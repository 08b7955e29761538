//! The check of statements.

#![tactic(auto, using(pc_walk::proofs::Walks::goes_further))]

ghost use Rattle.std.specs.Prelude.{IfOk, OnOk, List, Option, None, Some};
ghost use Rattle.pc_source.specs.declared.place.Place.{Place as PlaceOf};
ghost use Rattle.pc_tree.specs.Tree.{expr_of, name_of, stmt_of, stmt_of_kind, stmts_of_list, while_loop, for_loop};
ghost use Rattle.pc_tree.specs.Tree.{no_branches};
ghost use Rattle.pc_tree.specs.Lists.{branches_of_list, with_branch};
ghost use Rattle.pc_flow.specs.Stored.{env_of};
ghost use Rattle.pc_rules.specs.Computed.ModuleParents.{class_parents};
ghost use Rattle.pc_module_rules.specs.Computed.Statements.{step, walk_suite, walk_branches, behind_branches};
ghost use Rattle.pc_walk.specs.Touched.{touched_by, touched_by_branches, touched_by_stmt};
ghost use Rattle.pc_walk.specs.Walks.{IsValidIn, HoldsWay, WalkKept};
ghost use Rattle.pc_check.specs.Internal.StatementWalk.{HasAllLocals, IsAsLong, HoldsIfState};
ghost use Rattle.pc_check.specs.Internal.Walked.{IsValidWith, ExitSubsumes, StaysSubsumed, Walked, Branched, reached};
ghost use Rattle.pc_check.specs.Internal.Walked.{branching};

use pc_flow::{BothWays, Env, copy_env};
use pc_source::{OutOfMemory, Place};
use pc_statements::{
    assign_target, bind_annotated, check_assert, find_return, item_type, type_condition, type_in,
};
use pc_tree::{Branch, Expr, Name, Stmt, StmtKind};
use pc_types::TypeStore;
use pc_walk::{
    IfExits, Walk, bind_item, break_out, declare_unreached, for_start, join_exit, note_locals,
    note_touched, touched_by_for, touched_by_if, touched_by_while, while_start,
};

/// The exit of a loop while its body is checked.
#[derive(Drop)]
pub(crate) struct LoopExit<Ty: Drop> {
    /// The environment after the loop, into which that of each `break` is joined; `None` outside of loops.
    pub env: Option<Env<Ty>>,
    /// The locals where `env` may not subsume the current environment yet: a `break` joins only these.
    pub unsettled: Vec<usize>,
}

/// State of checking the branches of an `if`.
#[derive(Drop)]
struct IfState<Ty: Drop> {
    /// The environment where all conditions so far are false.
    last: Env<Ty>,
    /// The joined environments at the ends of the suites so far.
    ways: IfExits<Ty>,
}

/// Checks statements in order: appends their findings to `walk.found` and declares the locals that they bind. `env` is
/// the environment before them, `None` in unreachable code. Returns the environment after them, `None` if control
/// cannot get there.
///
/// `exit` is the exit of the enclosing loop. A `break` joins its environment into `exit.env` at `exit.unsettled` only;
/// elsewhere `exit.env` must already subsume `env`. Each statement adds the locals that it touches to `exit.unsettled`,
/// and a `break` removes those where a second join would change nothing.
#[cycle(statements)]
pub(crate) fn check_suite<S: TypeStore>(
    walk: &mut Walk<'_, S>,
    env: Option<Env<S::Ty>>,
    exit: &mut LoopExit<S::Ty>,
    body: &[Stmt],
) -> Result<Option<Env<S::Ty>>, OutOfMemory>
    requires stands { IsValidWith S.TypeStore walk.old env exit.old.env }
    requires long { HasAllLocals (reached S.TypeStore walk.old env exit.old.env) }
    requires breaks { ExitSubsumes S.TypeStore walk.old exit.old.unsettled.items env exit.old.env }
    ensures breaks { OnOk result (StaysSubsumed S.TypeStore walk.old walk.new
        (λ resolve. touched_by resolve (stmts_of_list body.now)) exit.old.unsettled.items exit.new.unsettled.items env
        exit.old.env exit.new.env) }
    ensures walked { IfOk result (λ out. Walked S.TypeStore walk.old env exit.old.env walk.new out exit.new.env
        (λ f w. walk_suite f w (stmts_of_list body.now))) }
    ensures goes_on { WalkKept S.TypeStore walk.old walk.new }
{
    let mut env = env;
    for statement in body {
        env = check_next(walk, env, exit, statement)?;
    }
    Ok(env)
}

/// Checks one statement, appends its findings, and adds the locals it touches to `exit.unsettled`; returns the
/// environment after it, `None` if control cannot get there. Each `break` in it is joined into `exit`, the exit of the
/// enclosing loop. If `env` is `None`, the statement is unreachable: it is not checked, and each local first bound in
/// it is declared `Any`.
#[cycle(statements)]
fn check_next<S: TypeStore>(
    walk: &mut Walk<'_, S>,
    env: Option<Env<S::Ty>>,
    exit: &mut LoopExit<S::Ty>,
    statement: &Stmt,
) -> Result<Option<Env<S::Ty>>, OutOfMemory>
    requires stands { IsValidWith S.TypeStore walk.old env exit.old.env }
    requires long { HasAllLocals (reached S.TypeStore walk.old env exit.old.env) }
    requires breaks { ExitSubsumes S.TypeStore walk.old exit.old.unsettled.items env exit.old.env }
    ensures breaks { OnOk result (StaysSubsumed S.TypeStore walk.old walk.new
        (λ resolve. touched_by_stmt resolve (stmt_of statement.now)) exit.old.unsettled.items exit.new.unsettled.items
        env exit.old.env exit.new.env) }
    ensures settled { IfOk result (λ out. ExitSubsumes S.TypeStore walk.new exit.new.unsettled.items out exit.new.env) }
    ensures walked { IfOk result (λ out. Walked S.TypeStore walk.old env exit.old.env walk.new out exit.new.env
        (λ f w. step f w.table w.env w.exit_env w.found (stmt_of statement.now))) }
    ensures goes_on { WalkKept S.TypeStore walk.old walk.new }
{
    match env {
        None => {
            declare_unreached(walk, &statement.kind)?;
            Ok(None)
        }
        Some(env) => {
            let kind = &statement.kind;
            let out = check_stmt(walk, env, exit, statement.first, kind)?;
            note_touched(walk, &exit.env, kind, &mut exit.unsettled)?;
            Ok(out)
        }
    }
}

/// Checks a reachable statement, whose first token is at `first`, in `env`, and appends its findings. Returns the
/// environment after it, `None` if control cannot get there. Each `break` in it is joined into `exit`, the exit of the
/// enclosing loop. The caller has to add the locals that the statement touches to `exit.unsettled`.
#[cycle(statements)]
fn check_stmt<S: TypeStore>(
    walk: &mut Walk<'_, S>,
    env: Env<S::Ty>,
    exit: &mut LoopExit<S::Ty>,
    first: Place,
    kind: &StmtKind,
) -> Result<Option<Env<S::Ty>>, OutOfMemory>
    requires stands { IsValidWith S.TypeStore walk.old (Some env) exit.old.env }
    requires long { HasAllLocals (reached S.TypeStore walk.old (Some env) exit.old.env) }
    requires breaks { ExitSubsumes S.TypeStore walk.old exit.old.unsettled.items (Some env) exit.old.env }
    ensures breaks { OnOk result (StaysSubsumed S.TypeStore walk.old walk.new
        (λ resolve. touched_by_stmt resolve (stmt_of_kind first kind.now)) exit.old.unsettled.items
        exit.new.unsettled.items (Some env) exit.old.env exit.new.env) }
    ensures walked { IfOk result (λ out. Walked S.TypeStore walk.old (Some env) exit.old.env walk.new out exit.new.env
        (λ f w. step f w.table w.env w.exit_env w.found (stmt_of_kind first kind.now))) }
    ensures goes_on { WalkKept S.TypeStore walk.old walk.new }
{
    match kind {
        StmtKind::Pass => Ok(Some(env)),
        StmtKind::Break => {
            break_out(walk, &mut exit.unsettled, &env, &mut exit.env)?;
            Ok(None)
        }
        StmtKind::Continue => Ok(None),
        StmtKind::Return(value) => {
            find_return(walk, &env, first, value)?;
            Ok(None)
        }
        StmtKind::Assert(condition, text) => {
            let env = check_assert(walk, env, condition, text)?;
            Ok(Some(env))
        }
        StmtKind::Annotated {
            target: name,
            annotation: hint,
            value,
        } => {
            let env = bind_annotated(walk, env, name, hint, value)?;
            Ok(Some(env))
        }
        StmtKind::Assign(target, value) => {
            let env = assign_target(walk, env, target, value)?;
            Ok(Some(env))
        }
        StmtKind::Expr(value) => {
            type_in(walk, &env, &None, value)?;
            Ok(Some(env))
        }
        StmtKind::While(condition, body) => check_while(walk, &env, body, condition),
        StmtKind::For {
            target: name,
            iterable,
            body,
        } => check_for(walk, &env, body, name, iterable),
        StmtKind::If(branches, suite) => {
            let if_state = check_branches(walk, env, exit, branches)?;
            let out = check_otherwise(walk, if_state, exit, suite)?;
            Ok(out)
        }
    }
}

/// Checks a `while` with `env` before it, and appends the findings: its condition at the loop's head, where each
/// assigned local that the body binds has its declared type, then its body where the condition is true. Returns the
/// environment after the loop: the one where the condition is false, joined with the one at each `break` of the loop.
/// That is never `None`, since it begins with the one where the condition is false; it is an `Option` since the exit of
/// a loop is one, and the callers of `check_stmt` expect one. Language Reference 8.2 "The while statement".
#[cycle(statements)]
fn check_while<S: TypeStore>(
    walk: &mut Walk<'_, S>,
    env: &Env<S::Ty>,
    body: &[Stmt],
    condition: &Expr,
) -> Result<Option<Env<S::Ty>>, OutOfMemory>
    requires stands { IsValidIn S.TypeStore walk.old env.now }
    requires long { IsAsLong (env_of S.tree walk.old.declared.now) (env_of S.tree env.now) }
    ensures walked { (p : PlaceOf) (way : Option (List (Option S.Ty))) → HoldsWay S.TypeStore walk.old way → IfOk result
        (λ out. Walked S.TypeStore walk.old (Some env.now) way walk.new out way
        (λ f w. step f w.table w.env w.exit_env w.found
        (while_loop p (expr_of condition.now) (stmts_of_list body.now)))) }
    ensures goes_on { WalkKept S.TypeStore walk.old walk.new }
{
    let head = while_start(walk, env, body)?;
    let BothWays {
        where_true,
        where_false,
    } = type_condition(walk, &head, condition)?;
    let unsettled = touched_by_while(walk.alloc, walk.context.names, condition, body)?;
    let mut exit = LoopExit {
        env: Some(where_false),
        unsettled,
    };
    check_suite(walk, Some(where_true), &mut exit, body)?;
    Ok(exit.env)
}

/// Checks a `for` with `env` before it, and appends the findings: its iterable in `env`, then its body at the loop's
/// head, where each assigned local that the loop binds has its declared type, with the target `name` bound to an item.
/// Returns the environment after the loop: the one at the head, joined with the one at each `break` of the loop. That
/// is never `None`, since it begins with the one at the head; it is an `Option` since the exit of a loop is one, and
/// the callers of `check_stmt` expect one. Language Reference 8.3 "The for statement".
#[cycle(statements)]
fn check_for<S: TypeStore>(
    walk: &mut Walk<'_, S>,
    env: &Env<S::Ty>,
    body: &[Stmt],
    name: &Name,
    iterable: &Expr,
) -> Result<Option<Env<S::Ty>>, OutOfMemory>
    requires stands { IsValidIn S.TypeStore walk.old env.now }
    requires long { IsAsLong (env_of S.tree walk.old.declared.now) (env_of S.tree env.now) }
    ensures walked { (p : PlaceOf) (way : Option (List (Option S.Ty))) → HoldsWay S.TypeStore walk.old way → IfOk result
        (λ out. Walked S.TypeStore walk.old (Some env.now) way walk.new out way
        (λ f w. step f w.table w.env w.exit_env w.found
        (for_loop p (name_of name.now) (expr_of iterable.now) (stmts_of_list body.now)))) }
    ensures goes_on { WalkKept S.TypeStore walk.old walk.new }
{
    let unsettled = touched_by_for(walk.alloc, walk.context.names, name, body)?;
    let item = item_type(walk, env, iterable)?;
    let head = for_start(walk, env, name, body)?;
    let mut exit = LoopExit {
        env: Some(copy_env(walk.store, walk.alloc, &head)?),
        unsettled,
    };
    let inside = bind_item(walk, head, name, iterable.place(), item)?;
    check_suite(walk, Some(inside), &mut exit, body)?;
    Ok(exit.env)
}

/// Checks the suite of `else`, an empty one if there is no `else`, where all conditions of an `if` are false, and
/// appends its findings; `if_state` is the state after the branches. Returns the environment after the `if`: the joined
/// ends of all its suites, `None` if none of them can complete. Each `break` is joined into `exit`, the exit of the
/// enclosing loop, and the locals that the suite touches are added to `exit.unsettled`. Language Reference 8.1 "The if
/// statement".
#[cycle(statements)]
fn check_otherwise<S: TypeStore>(
    walk: &mut Walk<'_, S>,
    if_state: IfState<S::Ty>,
    exit: &mut LoopExit<S::Ty>,
    otherwise: &[Stmt],
) -> Result<Option<Env<S::Ty>>, OutOfMemory>
    requires stands { IsValidWith S.TypeStore walk.old (Some if_state.last) exit.old.env }
    requires ways { HoldsWay S.TypeStore walk.old if_state.ways.met }
    requires settled { HoldsIfState (class_parents walk.old.context.globals.now) if_state.ways.unsettled.items
        (branching S.TypeStore walk.old if_state.last if_state.ways.met exit.old.env) }
    requires breaks { ExitSubsumes S.TypeStore walk.old exit.old.unsettled.items (Some if_state.last) exit.old.env }
    ensures breaks { OnOk result (StaysSubsumed S.TypeStore walk.old walk.new
        (λ resolve. touched_by resolve (stmts_of_list otherwise.now)) exit.old.unsettled.items exit.new.unsettled.items
        (Some if_state.last) exit.old.env exit.new.env) }
    ensures walked { IfOk result (λ out. Walked S.TypeStore walk.old (Some if_state.last) exit.old.env walk.new out
        exit.new.env
        (λ f w. behind_branches f (branching S.TypeStore walk.old if_state.last if_state.ways.met exit.old.env).ways
        (walk_suite f w (stmts_of_list otherwise.now)))) }
    ensures goes_on { WalkKept S.TypeStore walk.old walk.new }
{
    let IfState { last, ways } = if_state;
    let out = check_suite(walk, Some(last), exit, otherwise)?;
    let touched = touched_by_if(walk.alloc, walk.context.names, &[], otherwise)?;
    let joined = join_exit(walk, ways, touched, out)?;
    Ok(joined.met)
}

/// Checks the branches of an `if`, its `if` and each `elif`, in order, and appends their findings; `env` is the
/// environment before them. Returns the environment where all conditions are false, and the joined environments at the
/// ends of the branches' suites. Each `break` is joined into `exit`, the exit of the enclosing loop, and the locals
/// that the branches touch are added to `exit.unsettled`.
#[cycle(statements)]
fn check_branches<S: TypeStore>(
    walk: &mut Walk<'_, S>,
    env: Env<S::Ty>,
    exit: &mut LoopExit<S::Ty>,
    branches: &[Branch],
) -> Result<IfState<S::Ty>, OutOfMemory>
    requires stands { IsValidWith S.TypeStore walk.old (Some env) exit.old.env }
    requires long { HasAllLocals (reached S.TypeStore walk.old (Some env) exit.old.env) }
    requires breaks { ExitSubsumes S.TypeStore walk.old exit.old.unsettled.items (Some env) exit.old.env }
    ensures breaks { OnOk result (StaysSubsumed S.TypeStore walk.old walk.new
        (λ resolve. touched_by_branches resolve (branches_of_list branches.now)) exit.old.unsettled.items
        exit.new.unsettled.items (Some env) exit.old.env exit.new.env) }
    ensures breaks_subsumed { IfOk result
        (λ k. ExitSubsumes S.TypeStore walk.new exit.new.unsettled.items (Some k.last) exit.new.env) }
    ensures walked { IfOk result (λ k. Branched S.TypeStore walk.old env None exit.old.env walk.new k.last k.ways.met
        exit.new.env (λ f b. walk_branches f b (branches_of_list branches.now))) }
    ensures settled { IfOk result (λ k. HoldsIfState (class_parents walk.new.context.globals.now)
        k.ways.unsettled.items (branching S.TypeStore walk.new k.last k.ways.met exit.new.env)) }
    ensures goes_on { WalkKept S.TypeStore walk.old walk.new }
{
    let mut if_state = IfState {
        last: env,
        ways: IfExits {
            met: None,
            unsettled: Vec::new(walk.alloc),
        },
    };
    for branch in branches {
        if_state = check_branch(walk, if_state, exit, branch)?;
    }
    Ok(if_state)
}

/// Checks one branch of an `if`, and appends its findings: its condition where those before it are false
/// (`if_state.last`), and its suite where it is true. Returns the next state: the environment where its condition is
/// false too, and the ends of the suites before it joined with the end of its own. Each `break` is joined into `exit`,
/// the exit of the enclosing loop, and the locals that the branch touches are added to `exit.unsettled`.
#[cycle(statements)]
fn check_branch<S: TypeStore>(
    walk: &mut Walk<'_, S>,
    if_state: IfState<S::Ty>,
    exit: &mut LoopExit<S::Ty>,
    branch: &Branch,
) -> Result<IfState<S::Ty>, OutOfMemory>
    requires stands { IsValidWith S.TypeStore walk.old (Some if_state.last) exit.old.env }
    requires ways { HoldsWay S.TypeStore walk.old if_state.ways.met }
    requires settled { HoldsIfState (class_parents walk.old.context.globals.now) if_state.ways.unsettled.items
        (branching S.TypeStore walk.old if_state.last if_state.ways.met exit.old.env) }
    requires breaks { ExitSubsumes S.TypeStore walk.old exit.old.unsettled.items (Some if_state.last) exit.old.env }
    ensures breaks { OnOk result (StaysSubsumed S.TypeStore walk.old walk.new
        (λ resolve. touched_by_branches resolve (with_branch branch.now no_branches)) exit.old.unsettled.items
        exit.new.unsettled.items (Some if_state.last) exit.old.env exit.new.env) }
    ensures breaks_subsumed { IfOk result
        (λ k. ExitSubsumes S.TypeStore walk.new exit.new.unsettled.items (Some k.last) exit.new.env) }
    ensures walked { IfOk result (λ k. Branched S.TypeStore walk.old if_state.last if_state.ways.met exit.old.env walk.new
        k.last k.ways.met exit.new.env (λ f b. walk_branches f b (with_branch branch.now no_branches))) }
    ensures settled { IfOk result (λ k. HoldsIfState (class_parents walk.new.context.globals.now)
        k.ways.unsettled.items (branching S.TypeStore walk.new k.last k.ways.met exit.new.env)) }
    ensures goes_on { WalkKept S.TypeStore walk.old walk.new }
{
    let IfState { last, ways } = if_state;
    let BothWays {
        where_true,
        where_false,
    } = type_condition(walk, &last, &branch.condition)?;
    let names = walk.context.names;
    let touched = touched_by_while(walk.alloc, names, &branch.condition, &branch.body)?;
    note_locals(&exit.env, &touched, &mut exit.unsettled)?;
    let out = check_suite(walk, Some(where_true), exit, &branch.body)?;
    // A `break` in the suite may have removed these, but the next condition starts from before the suite.
    note_locals(&exit.env, &touched, &mut exit.unsettled)?;
    let ways = join_exit(walk, ways, touched, out)?;
    Ok(IfState {
        last: where_false,
        ways,
    })
}
