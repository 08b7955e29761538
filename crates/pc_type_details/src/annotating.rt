//! The details of annotations: why one is no type, and which members make no union.

ghost use Rattle.std.specs.Prelude.{◌≡◌, All, IfOk, IfSome, map, true};
ghost use Rattle.std.specs.List.{list_any};
ghost use Rattle.std.specs.Option.{option_and_then, option_map};
ghost use Rattle.pc_tree.specs.Tree.{ann_of, name_of};
ghost use Rattle.pc_types.specs.Tree.{Tree};
ghost use Rattle.pc_types.specs.Boxed.{tree_of, IsGiven};
ghost use Rattle.pc_types.specs.Head.{head_of};
ghost use Rattle.pc_types.specs.Join.{absorbs};
ghost use Rattle.pc_scope.specs.Resolution.{resolve_in_module};
ghost use Rattle.pc_annotations.specs.Annotations.{are_apart, is_member, read_anns, reading};
ghost use Rattle.pc_annotations.specs.Bases.{bases_of};
ghost use Rattle.pc_annotations.specs.Listed.{anns_of_list};
ghost use Rattle.pc_detail_texts.specs.Details as detail;
ghost use Rattle.pc_detail_texts.specs.Mapped.{map_annotation, map_clash};
ghost use Rattle.pc_detail_texts.specs.Shown.{annotation_of_value, clash_of_value};
ghost use Rattle.pc_detail_rules.specs.Annotations.{annotation_detail, annotation_fault, clash_among, clash_with, fault_of_applied};
ghost use Rattle.pc_detail_rules.specs.Annotations.{fault_of_builtin, fault_of_name, fault_of_types, is_large, no_class};
ghost use Rattle.pc_detail_rules.specs.Annotations.{shown_fault, shown_reading, shown_readings, union_detail};
ghost use Rattle.pc_detail_facts.specs.Held.{AreFacts, ShowsDetail, module_held, text_held};

use pc_annotations::read_ann;
use pc_detail_facts::Facts;
use pc_detail_texts::{AnnotationFault, Clash, Counts, Detail, RuleFault};
use pc_scope::{Builtin, NameMeaning, Owner};
use pc_source::OutOfMemory;
use pc_tree::{Ann, Code, Finding, Findings, Name};
use pc_types::{BoxStore, BoxType, Head, TypeStore};

/// Returns whether a finding is that of a type with too many nodes.
fn is_large(finding: &Finding) -> bool
    ensures { result ≡ is_large finding.now }
{
    matches!(finding.code, Code::E26)
}

/// Returns whether an annotation was found to be of a type with too many nodes.
fn is_too_large(found: &Findings) -> bool
    ensures { result ≡ list_any is_large found.now.items }
{
    found.iter().any(|finding| is_large(finding))
}

/// Returns the head of a type.
fn head(ty: &BoxType) -> Head
    requires { IsGiven ty.now }
    ensures { result ≡ head_of (tree_of ty.now) }
{
    BoxStore::new().head(ty)
}

/// Returns whether a type may be a member of a union.
fn is_member(ty: &BoxType) -> bool
    ensures { result ≡ is_member (tree_of ty.now) }
{
    !matches!(
        ty,
        BoxType::Any | BoxType::Object | BoxType::Never | BoxType::Union(_, _)
    )
}

/// Returns the type of an annotation, or `None` if it has over 256 nodes.
pub(crate) fn reading(facts: &Facts<'_, '_>, ann: &Ann) -> Result<Option<BoxType>, OutOfMemory>
    requires { AreFacts facts.now }
    ensures reading { IfOk result
        (λ o. option_map tree_of o ≡ shown_reading (module_held facts.now) (ann_of ann.now)) }
    ensures given { IfOk result (λ o. IfSome o IsGiven) }
{
    // The findings in it have details of their own.
    let mut found = Vec::new(facts.alloc);
    let mut store = BoxStore::new();
    let ty = read_ann(&mut store, facts.alloc, facts.outline, &mut found, ann)?;
    if is_too_large(&found) {
        return Ok(None);
    }
    Ok(Some(ty))
}

/// Returns the types of annotations, or `None` if one of them has over 256 nodes.
fn readings(facts: &Facts<'_, '_>, anns: &[Ann]) -> Result<Option<Vec<BoxType>>, OutOfMemory>
    requires { AreFacts facts.now }
    ensures readings { IfOk result (λ o. option_map (λ v. map tree_of v.items) o
        ≡ shown_readings (module_held facts.now) (anns_of_list anns.now)) }
    ensures given { IfOk result (λ o. IfSome o (λ v. All IsGiven v.items)) }
{
    let mut types = Vec::new(facts.alloc);
    for ann in anns {
        let Some(ty) = reading(facts, ann)? else {
            return Ok(None);
        };
        types.push(ty)?;
    }
    Ok(Some(types))
}

/// Returns whether the first of two types with different heads absorbs the other in a union.
fn absorbs(facts: &Facts<'_, '_>, above: Head, below: Head) -> bool
    requires facts { AreFacts facts.now }
    requires other { ¬ (above ≡ below) }
    ensures { (t u : Tree) → head_of t ≡ above → head_of u ≡ below
        → result ≡ absorbs (bases_of (module_held facts.now)) t u }
{
    match (above, below) {
        (Head::Int, Head::Bool) => true,
        (Head::Class(above), Head::Class(below)) => {
            facts.outline.parents.is_within(below, above)
        }
        _ => false,
    }
}

/// Returns whether two types may be members of one union, given that the first may be one.
fn are_apart(facts: &Facts<'_, '_>, first: &BoxType, second: &BoxType) -> bool
    requires facts { AreFacts facts.now }
    requires first { IsGiven first.now }
    requires second { IsGiven second.now }
    requires member { is_member (tree_of first.now) ≡ true }
    ensures { result ≡ are_apart (bases_of (module_held facts.now)) (tree_of first.now) (tree_of second.now) }
{
    let ours = head(first);
    let theirs = head(second);
    ours != theirs && !absorbs(facts, ours, theirs) && !absorbs(facts, theirs, ours)
}

/// Returns the first of some parts that cannot be in one union with this one, given that this one may be in one.
fn clash_with(
    facts: &Facts<'_, '_>,
    first: &BoxType,
    others: &[BoxType],
) -> Result<Option<Clash>, OutOfMemory>
    requires facts { AreFacts facts.now }
    requires first { IsGiven first.now }
    requires others { All IsGiven others.now }
    requires member { is_member (tree_of first.now) ≡ true }
    ensures { IfOk result (λ o. option_map clash_of_value o ≡ option_map (map_clash (text_held facts.now))
        (clash_with (bases_of (module_held facts.now)) (tree_of first.now) (map tree_of others.now))) }
{
    for other in others {
        if !are_apart(facts, first, other) {
            return Ok(Some(Clash::Two(facts.type_words(first)?, facts.type_words(other)?)));
        }
    }
    Ok(None)
}

/// Returns the first part that is no member of a union, or the first two that cannot be in one.
fn clash(facts: &Facts<'_, '_>, parts: &[BoxType]) -> Result<Option<Clash>, OutOfMemory>
    requires facts { AreFacts facts.now }
    requires parts { All IsGiven parts.now }
    ensures { IfOk result (λ o. option_map clash_of_value o ≡ option_map (map_clash (text_held facts.now))
        (clash_among (bases_of (module_held facts.now)) (map tree_of parts.now))) }
{
    let mut rest = parts;
    'down: while let Some((first, others)) = rest.split_first() {
        if !is_member(first) {
            return Ok(Some(Clash::NoMember(facts.type_words(first)?)));
        }
        let clash = clash_with(facts, first, others)?;
        if clash.is_some() {
            return Ok(clash);
        }
        rest = others;
    }
    Ok(None)
}

/// Returns the first clash among the parts of a union, if each has at most 256 nodes.
fn clash_of_parts(facts: &Facts<'_, '_>, parts: &[Ann]) -> Result<Option<Clash>, OutOfMemory>
    requires { AreFacts facts.now }
    ensures { IfOk result (λ o. option_map clash_of_value o ≡ option_map (map_clash (text_held facts.now))
        (option_and_then (clash_among (bases_of (module_held facts.now)))
        (shown_readings (module_held facts.now) (anns_of_list parts.now)))) }
{
    match readings(facts, parts)? {
        Some(types) => clash(facts, &types),
        None => Ok(None),
    }
}

/// Returns the detail of `E10`: the first clash among the parts of the union.
pub fn union_detail(facts: &Facts<'_, '_>, ann: &Ann) -> Result<Option<Detail>, OutOfMemory>
    requires { AreFacts facts.now }
    ensures { IfOk result (ShowsDetail facts.now (union_detail (module_held facts.now) (ann_of ann.now))) }
{
    let Ann::Union(_, parts) = ann else {
        return Ok(None);
    };
    match clash_of_parts(facts, parts)? {
        Some(clash) => Ok(Some(Detail::Rule(RuleFault::Union(clash)))),
        None => Ok(None),
    }
}

/// Returns the fault of a name that means no class, with the place of its definition if there is one.
fn no_class(
    facts: &Facts<'_, '_>,
    word: &str,
    name: Option<&Name>,
) -> Result<AnnotationFault, OutOfMemory>
    ensures { IfOk result (λ f. annotation_of_value f
        ≡ map_annotation (text_held facts.now) (no_class word.now (option_map (λ n. name_of n.now) name.entry))) }
{
    let word = facts.words(word)?;
    match name {
        Some(name) => Ok(AnnotationFault::NoType(word, name.place)),
        None => Ok(AnnotationFault::UnknownType(word)),
    }
}

/// Returns why a reserved name alone is no type.
fn fault_of_builtin(
    facts: &Facts<'_, '_>,
    word: &str,
    builtin: Builtin,
) -> Result<AnnotationFault, OutOfMemory>
    ensures { IfOk result (λ f. annotation_of_value f
        ≡ map_annotation (text_held facts.now) (fault_of_builtin word.now builtin)) }
{
    match builtin {
        Builtin::List | Builtin::Dict | Builtin::Tuple => {
            Ok(AnnotationFault::Bare(facts.words(word)?))
        }
        Builtin::Any => Ok(AnnotationFault::AnyNotImported),
        _ => Ok(AnnotationFault::ReservedNoType(facts.words(word)?)),
    }
}

/// Returns why a name of this meaning alone is no type.
fn fault_of_name(
    facts: &Facts<'_, '_>,
    word: &str,
    meaning: NameMeaning,
) -> Result<AnnotationFault, OutOfMemory>
    requires { AreFacts facts.now }
    ensures { IfOk result (λ f. annotation_of_value f
        ≡ map_annotation (text_held facts.now) (fault_of_name (module_held facts.now) word.now meaning)) }
{
    match meaning {
        NameMeaning::Const(number) => match facts.definitions.constants.get(number) {
            Some(constant) => no_class(facts, word, Some(&constant.name)),
            None => no_class(facts, word, None),
        },
        NameMeaning::Func(number) => match facts.definitions.functions.get(number) {
            Some(def) => no_class(facts, word, Some(&def.name)),
            None => no_class(facts, word, None),
        },
        NameMeaning::Builtin(builtin) => fault_of_builtin(facts, word, builtin),
        NameMeaning::Local(_) | NameMeaning::Class(_) | NameMeaning::None => {
            no_class(facts, word, None)
        }
    }
}

/// Returns the fault of a dict's key that is neither `int` nor `str`, or `None` if its type has over 256 nodes.
fn key_fault(facts: &Facts<'_, '_>, key: &Ann) -> Result<Option<AnnotationFault>, OutOfMemory>
    requires { AreFacts facts.now }
    ensures { IfOk result (λ o. option_map annotation_of_value o ≡ option_map (map_annotation (text_held facts.now))
        (shown_fault (detail.key_type
        (reading (module_held facts.now) (bases_of (module_held facts.now)) (ann_of key.now))))) }
{
    match reading(facts, key)? {
        Some(key) => Ok(Some(AnnotationFault::KeyType(facts.type_words(&key)?))),
        None => Ok(None),
    }
}

/// Returns why a container takes no types like these: another number of them, or a key that is neither `int` nor
/// `str`; `None` if the type of that key has over 256 nodes.
fn fault_of_applied(
    facts: &Facts<'_, '_>,
    word: &str,
    builtin: Builtin,
    types: &[Ann],
) -> Result<Option<AnnotationFault>, OutOfMemory>
    requires { AreFacts facts.now }
    ensures { IfOk result (λ o. option_map annotation_of_value o ≡ option_map (map_annotation (text_held facts.now))
        (shown_fault (fault_of_applied word.now builtin
        (read_anns (module_held facts.now) (bases_of (module_held facts.now)) (anns_of_list types.now))))) }
{
    let takes = match builtin {
        Builtin::List => 1,
        Builtin::Dict => 2,
        _ => return Ok(Some(AnnotationFault::TakesNone(facts.words(word)?))),
    };
    if takes == 2 && types.len() == 2 {
        return key_fault(facts, &types[0]);
    }
    let given = types.len();
    let counts = Counts { takes, given };
    Ok(Some(AnnotationFault::TakesTypes(facts.words(word)?, counts)))
}

/// Returns why a name takes no types like these: it is no type itself, or takes none; `None` if it would name a type
/// of over 256 nodes.
fn fault_of_types(
    facts: &Facts<'_, '_>,
    name: &Name,
    types: &[Ann],
) -> Result<Option<AnnotationFault>, OutOfMemory>
    requires { AreFacts facts.now }
    ensures { IfOk result (λ o. option_map annotation_of_value o ≡ option_map (map_annotation (text_held facts.now))
        (shown_fault (fault_of_types (module_held facts.now) (name_of name.now).text
        (resolve_in_module (module_held facts.now) (name_of name.now).text)
        (read_anns (module_held facts.now) (bases_of (module_held facts.now)) (anns_of_list types.now))))) }
{
    let word = name.text.as_str();
    match facts.outline.scopes.resolve(Owner::Module, word) {
        NameMeaning::Builtin(builtin) => fault_of_applied(facts, word, builtin, types),
        NameMeaning::Class(_) => Ok(Some(AnnotationFault::TakesNone(facts.words(word)?))),
        meaning => Ok(Some(fault_of_name(facts, word, meaning)?)),
    }
}

/// Returns why an annotation is no type.
fn fault_of_annotation(
    facts: &Facts<'_, '_>,
    ann: &Ann,
) -> Result<Option<AnnotationFault>, OutOfMemory>
    requires { AreFacts facts.now }
    ensures { IfOk result (λ o. option_map annotation_of_value o
        ≡ option_map (map_annotation (text_held facts.now)) (annotation_fault (module_held facts.now) (ann_of ann.now))) }
{
    match ann {
        Ann::Name(name) => {
            let word = name.text.as_str();
            let meaning = facts.outline.scopes.resolve(Owner::Module, word);
            Ok(Some(fault_of_name(facts, word, meaning)?))
        }
        Ann::Apply {
            head,
            arguments: types,
            ..
        } => fault_of_types(facts, head, types),
        Ann::ApplyEmpty(_, head) => fault_of_types(facts, head, &[]),
        Ann::NoneValue(_) | Ann::Union(_, _) => Ok(None),
    }
}

/// Returns the detail of `E09`: why the annotation is no type.
pub fn annotation_detail(facts: &Facts<'_, '_>, ann: &Ann) -> Result<Option<Detail>, OutOfMemory>
    requires { AreFacts facts.now }
    ensures { IfOk result (ShowsDetail facts.now (annotation_detail (module_held facts.now) (ann_of ann.now))) }
{
    match fault_of_annotation(facts, ann)? {
        Some(fault) => Ok(Some(Detail::Rule(RuleFault::Annotation(fault)))),
        None => Ok(None),
    }
}
