//! Tests of types: the parts of a type that pass and fail a test.

ghost use Rattle.std.specs.Prelude.{◌≡◌, ◌≤◌, ◌++◌, IfOk, OnOk, All, map, option_to_list};
ghost use Rattle.pc_types.specs.Tree.{Any, ListOf};
ghost use Rattle.pc_types.specs.Shape.{nodes, node_limit, union};
ghost use Rattle.pc_types.specs.Normal.{IsNormal};
ghost use Rattle.pc_types.specs.Store.{Means, KeepsTypes};
ghost use Rattle.pc_types.specs.WellFormed.{IsWellFormed};
ghost use Rattle.pc_flow.specs.Narrowing.{type_where_true, type_where_false, member_passing, member_failing};
ghost use Rattle.pc_flow.specs.Tests.{tested_of, type_for, class_standing, how_stands, IsOne, GivesLeft, MeansSplit};

use pc_source::OutOfMemory;
use pc_types::{Head, Parents, TypeStore};
use std::alloc::Global;

/// A test that a condition can make of a local. Own rule of the profile.
#[derive(Clone, Copy, Debug, PartialEq, Eq)]
pub enum Test {
    None,
    List,
    Int,
    Bool,
    Str,
    /// The class with this number.
    Class(usize),
}

/// The relation of a member of a type to the tested type.
#[derive(Clone, Copy, Debug, PartialEq, Eq)]
pub enum TestRelation {
    /// The member is the tested type or a subtype of it.
    Within,
    /// The member is a proper supertype of the tested type.
    Above,
    /// Neither.
    Beside,
}

/// The parts of a member that pass and fail a test.
#[derive(Drop)]
pub struct Left<Ty: Drop> {
    pub passing: Option<Ty>,
    pub failing: Option<Ty>,
}

/// A type where a test of it is true, and where it is false.
#[derive(Drop)]
pub struct Split<Ty: Drop> {
    pub passing: Ty,
    pub failing: Ty,
}

/// The types left of a type's members by a test: where it is true, and where it is false.
#[derive(Drop)]
struct SplitMembers<Ty: Drop> {
    passing: Vec<Ty>,
    failing: Vec<Ty>,
}

/// Returns the relation of a class to the tested class.
fn class_stands(parents: &Parents, tested: usize, class: usize) -> TestRelation
    ensures { result ≡ class_standing parents.now tested class }
{
    if parents.is_within(class, tested) {
        return TestRelation::Within;
    }
    if parents.is_within(tested, class) {
        return TestRelation::Above;
    }
    TestRelation::Beside
}

/// Returns the relation of a type with this head to the tested type.
fn how_stands(parents: &Parents, test: Test, head: Head) -> TestRelation
    ensures { result ≡ how_stands parents.now test head }
{
    match (head, test) {
        (Head::Any, _) => TestRelation::Above,
        (Head::Object, _) => TestRelation::Above,
        (Head::None, Test::None) => TestRelation::Within,
        (Head::List, Test::List) => TestRelation::Within,
        (Head::Int, Test::Int) => TestRelation::Within,
        (Head::Int, Test::Bool) => TestRelation::Above,
        (Head::Bool, Test::Int) => TestRelation::Within,
        (Head::Bool, Test::Bool) => TestRelation::Within,
        (Head::Str, Test::Str) => TestRelation::Within,
        (Head::Class(class), Test::Class(tested)) => class_stands(parents, tested, class),
        _ => TestRelation::Beside,
    }
}

/// Returns the type `list[Any]`.
fn list_of_any<S: TypeStore>(store: &mut S, alloc: Global) -> Result<S::Ty, OutOfMemory>
    ensures value { IfOk result (λ t. Means S.has S.tree store.new t (ListOf Any)) }
    ensures kept { KeepsTypes S.has store.old store.new }
{
    let any = store.any(alloc)?;
    match store.list(alloc, &any)? {
        Some(list) => Ok(list),
        None => Ok(any),
    }
}

/// Returns the type that a member wider than the tested type, such as `Any`, becomes where it passes the test: the
/// tested type, for a list `list[Any]`.
fn type_for<S: TypeStore>(store: &mut S, alloc: Global, test: Test) -> Result<S::Ty, OutOfMemory>
    ensures value { IfOk result (λ t. Means S.has S.tree store.new t (type_for test)) }
    ensures kept { KeepsTypes S.has store.old store.new }
{
    match test {
        Test::None => store.none(alloc),
        Test::List => list_of_any(store, alloc),
        Test::Int => store.int(alloc),
        Test::Bool => store.bool(alloc),
        Test::Str => store.str(alloc),
        Test::Class(class) => store.class(alloc, class),
    }
}

/// Returns the parts of a member of a type that pass and fail a test, each `None` if nothing is left.
fn left_of<S: TypeStore>(
    store: &mut S,
    alloc: Global,
    parents: &Parents,
    test: Test,
    member: &S::Ty,
) -> Result<Left<S::Ty>, OutOfMemory>
    requires has { S.has store.old member.now }
    requires one { IsOne (S.tree member.now) }
    ensures value { IfOk result
        (λ l. GivesLeft S.has S.tree store.new l (member_passing parents.now (tested_of test) (S.tree member.now))
        (member_failing parents.now (tested_of test) (S.tree member.now))) }
    ensures kept { KeepsTypes S.has store.old store.new }
{
    let head = store.head(member);
    match how_stands(parents, test, head) {
        TestRelation::Within => {
            let member = store.copy(alloc, member)?;
            Ok(Left {
                passing: Some(member),
                failing: None,
            })
        }
        TestRelation::Above => {
            let tested = type_for(store, alloc, test)?;
            let member = store.copy(alloc, member)?;
            Ok(Left {
                passing: Some(tested),
                failing: Some(member),
            })
        }
        TestRelation::Beside => {
            let member = store.copy(alloc, member)?;
            Ok(Left {
                passing: None,
                failing: Some(member),
            })
        }
    }
}

/// Appends a type if there is one.
fn add_left<Ty: Drop>(types: &mut Vec<Ty>, ty: Option<Ty>) -> Result<(), OutOfMemory>
    ensures { OnOk result (types.new.items ≡ types.old.items ++ option_to_list ty) }
{
    if let Some(ty) = ty {
        types.push(ty)?;
    }
    Ok(())
}

/// Returns the union of these types, `Never` if there are none. They are the parts left of a type's members, so the
/// union has no more nodes than that type.
fn union_left<S: TypeStore>(
    store: &mut S,
    alloc: Global,
    types: &[S::Ty],
) -> Result<S::Ty, OutOfMemory>
    requires types { All (S.has store.old) types.now }
    requires order { IsNormal (union (map S.tree types.now)) }
    requires small { nodes (union (map S.tree types.now)) ≤ node_limit }
    ensures value { IfOk result (λ t. Means S.has S.tree store.new t (union (map S.tree types.now))) }
    ensures kept { KeepsTypes S.has store.old store.new }
{
    match store.union(alloc, types)? {
        Some(union) => Ok(union),
        None => store.never(alloc),
    }
}

/// Returns the parts of each member of a type that pass and fail a test, in the order of the members.
fn split_members<S: TypeStore>(
    store: &mut S,
    alloc: Global,
    parents: &Parents,
    test: Test,
    ty: &S::Ty,
) -> Result<SplitMembers<S::Ty>, OutOfMemory>
    requires has { S.has store.old ty.now }
    requires well_formed { IsWellFormed parents.now (S.tree ty.now) }
    ensures passing { IfOk result
        (λ s. union (map S.tree s.passing.items) ≡ type_where_true parents.now (tested_of test) (S.tree ty.now)) }
    ensures failing { IfOk result
        (λ s. union (map S.tree s.failing.items) ≡ type_where_false parents.now (tested_of test) (S.tree ty.now)) }
    ensures given_passing { IfOk result (λ s. All (S.has store.new) s.passing.items) }
    ensures given_failing { IfOk result (λ s. All (S.has store.new) s.failing.items) }
    ensures kept { KeepsTypes S.has store.old store.new }
{
    let members = store.members(alloc, ty)?;
    let mut passing = Vec::new(alloc);
    let mut failing = Vec::new(alloc);
    for i in 0..members.len() {
        let left = left_of(store, alloc, parents, test, &members[i])?;
        add_left(&mut passing, left.passing)?;
        add_left(&mut failing, left.failing)?;
    }
    Ok(SplitMembers { passing, failing })
}

/// Returns the parts of a type that pass and fail a test. Own rule of the profile.
pub(crate) fn split_type<S: TypeStore>(
    store: &mut S,
    alloc: Global,
    parents: &Parents,
    test: Test,
    ty: &S::Ty,
) -> Result<Split<S::Ty>, OutOfMemory>
    requires has { S.has store.old ty.now }
    requires well_formed { IsWellFormed parents.now (S.tree ty.now) }
    ensures value { IfOk result
        (λ s. MeansSplit S.has S.tree store.new s (type_where_true parents.now (tested_of test) (S.tree ty.now))
        (type_where_false parents.now (tested_of test) (S.tree ty.now))) }
    ensures kept { KeepsTypes S.has store.old store.new }
{
    parents.ordered();
    let left = split_members(store, alloc, parents, test, ty)?;
    let passing = union_left(store, alloc, &left.passing)?;
    let failing = union_left(store, alloc, &left.failing)?;
    Ok(Split { passing, failing })
}
