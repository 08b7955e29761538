//! The number of nodes of types that have too many.

ghost use Rattle.std.specs.Prelude.{◌≡◌, All, IfOk, None, map};
ghost use Rattle.std.specs.Option.{option_map};
ghost use Rattle.pc_tree.specs.Tree.{ann_of, expr_of};
ghost use Rattle.pc_tree.specs.Lists.{entries_of_list, exprs_of_list};
ghost use Rattle.pc_types.specs.Boxed.{tree_of, IsGiven};
ghost use Rattle.pc_types.specs.JoinedTypes.{types_joined};
ghost use Rattle.pc_types.specs.Shape.{nodes, nodes_of, trees};
ghost use Rattle.pc_annotations.specs.Annotations.{read_anns, reading};
ghost use Rattle.pc_annotations.specs.Bases.{bases_of};
ghost use Rattle.pc_annotations.specs.Listed.{anns_of_list};
ghost use Rattle.pc_detail_rules.specs.Annotations.{shown_reading, told_nodes};
ghost use Rattle.pc_detail_facts.specs.Held.{AreFacts, ShowsDetail, known_held, module_held};
ghost use Rattle.pc_detail_rules.specs.Operations.{display_size, display_type, types_here, value_types_here};

use crate::annotating::reading;
use pc_detail_facts::Facts;
use pc_detail_texts::{Detail, RuleFault};
use pc_source::OutOfMemory;
use pc_tree::{Ann, Entry, Expr};
use pc_types::{BoxStore, BoxType, TypeStore};

/// Returns the number of nodes of the types of annotations together.
#[cycle(nodes)]
fn nodes_of_each(facts: &Facts<'_, '_>, anns: &[Ann]) -> Result<usize, OutOfMemory>
    requires { AreFacts facts.now }
    ensures { IfOk result (λ n. n ≡ told_nodes (nodes_of (trees
        (read_anns (module_held facts.now) (bases_of (module_held facts.now)) (anns_of_list anns.now))))) }
{
    let mut count: usize = 0;
    for ann in anns {
        count = count.saturating_add(annotation_nodes(facts, ann)?);
    }
    Ok(count)
}

/// Returns the number of nodes of the type of an annotation that has too many: one, with those of its parts; a union
/// has a node for each bar.
#[cycle(nodes)]
fn large_nodes(facts: &Facts<'_, '_>, ann: &Ann) -> Result<usize, OutOfMemory>
    requires facts { AreFacts facts.now }
    requires large { shown_reading (module_held facts.now) (ann_of ann.now) ≡ None }
    ensures { IfOk result (λ n. n
        ≡ told_nodes (nodes (reading (module_held facts.now) (bases_of (module_held facts.now)) (ann_of ann.now)))) }
{
    match ann {
        Ann::Name(_) | Ann::NoneValue(_) | Ann::ApplyEmpty(_, _) => Ok(1),
        Ann::Apply {
            arguments: parts,
            ..
        } => Ok(nodes_of_each(facts, parts)?.saturating_add(1)),
        Ann::Union(_, parts) => {
            let bars = parts.len().saturating_sub(1);
            Ok(nodes_of_each(facts, parts)?.saturating_add(bars))
        }
    }
}

/// Returns the number of nodes of the type of an annotation.
#[cycle(nodes)]
#[tactic(auto, using(crate::proofs::AnnotationFaults::nodes_shown))]
pub fn annotation_nodes(facts: &Facts<'_, '_>, ann: &Ann) -> Result<usize, OutOfMemory>
    requires { AreFacts facts.now }
    ensures { IfOk result (λ n. n
        ≡ told_nodes (nodes (reading (module_held facts.now) (bases_of (module_held facts.now)) (ann_of ann.now)))) }
{
    match reading(facts, ann)? {
        Some(ty) => Ok(BoxStore::new().nodes(&ty)),
        None => large_nodes(facts, ann),
    }
}

/// Returns the number of nodes of the types of items together.
fn item_nodes(facts: &Facts<'_, '_>, items: &[Expr]) -> usize
    requires { AreFacts facts.now }
    ensures { result ≡ told_nodes (nodes_of (trees
        (types_here (module_held facts.now) (known_held facts.now) (exprs_of_list items.now)))) }
{
    let mut count: usize = 0;
    for item in items {
        count = count.saturating_add(BoxStore::new().nodes(facts.type_of(item)));
    }
    count
}

/// Returns the number of nodes of the join of types.
fn joined_nodes(facts: &Facts<'_, '_>, types: &[BoxType]) -> Result<usize, OutOfMemory>
    requires facts { AreFacts facts.now }
    requires types { All IsGiven types.now }
    ensures { IfOk result (λ n. n
        ≡ nodes (types_joined (bases_of (module_held facts.now)) (map tree_of types.now))) }
{
    let mut store = BoxStore::new();
    let joined = store.join_all(facts.alloc, facts.outline.parents, types)?;
    Ok(store.nodes(&joined))
}

/// Returns the types of items.
fn item_types(facts: &Facts<'_, '_>, items: &[Expr]) -> Result<Vec<BoxType>, OutOfMemory>
    requires { AreFacts facts.now }
    ensures types { IfOk result (λ v. map tree_of v.items
        ≡ types_here (module_held facts.now) (known_held facts.now) (exprs_of_list items.now)) }
    ensures given { IfOk result (λ v. All IsGiven v.items) }
{
    let mut types = Vec::new(facts.alloc);
    for item in items {
        types.push(BoxStore::new().copy(facts.alloc, facts.type_of(item))?)?;
    }
    Ok(types)
}

/// Returns the types of the values of a dict display.
fn value_types(facts: &Facts<'_, '_>, entries: &[Entry]) -> Result<Vec<BoxType>, OutOfMemory>
    requires { AreFacts facts.now }
    ensures types { IfOk result (λ v. map tree_of v.items
        ≡ value_types_here (module_held facts.now) (known_held facts.now) (entries_of_list entries.now)) }
    ensures given { IfOk result (λ v. All IsGiven v.items) }
{
    let mut types = Vec::new(facts.alloc);
    for entry in entries {
        types.push(BoxStore::new().copy(facts.alloc, facts.type_of(&entry.value))?)?;
    }
    Ok(types)
}

/// Returns the number of nodes of the type that a display would have, if it had not too many.
fn display_nodes(facts: &Facts<'_, '_>, expr: &Expr) -> Result<Option<usize>, OutOfMemory>
    requires { AreFacts facts.now }
    ensures { IfOk result (λ o. o ≡ option_map (λ t. told_nodes (nodes t))
        (display_type (module_held facts.now) (known_held facts.now) (expr_of expr.now))) }
{
    match expr {
        Expr::Tuple(_, items) => Ok(Some(item_nodes(facts, items).saturating_add(1))),
        Expr::List(_, items) => {
            let nodes = joined_nodes(facts, &item_types(facts, items)?)?;
            Ok(Some(nodes.saturating_add(1)))
        }
        Expr::Dict(_, entries) => {
            let nodes = joined_nodes(facts, &value_types(facts, entries)?)?;
            Ok(Some(nodes.saturating_add(2)))
        }
        _ => Ok(None),
    }
}

/// Returns the detail of `E26` at a display: the number of nodes of its type.
pub fn size_detail(facts: &Facts<'_, '_>, expr: &Expr) -> Result<Option<Detail>, OutOfMemory>
    requires { AreFacts facts.now }
    ensures { IfOk result (ShowsDetail facts.now
        (display_size (module_held facts.now) (known_held facts.now) (expr_of expr.now))) }
{
    match display_nodes(facts, expr)? {
        Some(nodes) => Ok(Some(Detail::Rule(RuleFault::Size(nodes)))),
        None => Ok(None),
    }
}
