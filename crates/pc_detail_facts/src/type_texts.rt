//! The texts of types as details tell them.

ghost use Rattle.std.specs.Prelude.{◌++◌, ℕ, List, codes};
ghost use Rattle.pc_tree.specs.Tree.{Module as ModuleOf};
ghost use Rattle.pc_types.specs.Boxed.{tree_of, trees_in};
ghost use Rattle.pc_annotations.specs.Text.{type_text, parts_text, further_parts_text};
ghost use Rattle.pc_detail_texts.specs.Shortened.{KeepsText};
ghost use Rattle.pc_detail_facts.specs.Held.{HoldsDefinitions};

use crate::definitions::Definitions;
use pc_detail_texts::ShortText;
use pc_types::BoxType;

/// Appends the text of a type.
#[cycle(push)]
pub(crate) fn push_type(definitions: &Definitions<'_>, ty: &BoxType, text: &mut ShortText)
    ensures { (m : ModuleOf) (whole : List ℕ) → HoldsDefinitions m definitions.now → KeepsText text.old whole
        → KeepsText text.new (whole ++ type_text m (tree_of ty.now)) }
{
    match ty {
        BoxType::Any => text.push("Any"),
        BoxType::Object => text.push("object"),
        BoxType::Never => text.push("Never"),
        BoxType::Int => text.push("int"),
        BoxType::Bool => text.push("bool"),
        BoxType::Str => text.push("str"),
        BoxType::NoneType => text.push("None"),
        BoxType::Class(number) => text.push(definitions.class_name(*number)),
        BoxType::List(item) => push_list(definitions, item, text),
        BoxType::Dict(key, value) => push_dict(definitions, key, value, text),
        BoxType::Tuple(parts) => push_tuple(definitions, parts, text),
        BoxType::Union(first, others) => push_union(definitions, first, others, text),
    }
}

/// Appends the text of a list with items of a type.
#[cycle(push)]
fn push_list(definitions: &Definitions<'_>, item: &BoxType, text: &mut ShortText)
    ensures { (m : ModuleOf) (whole : List ℕ) → HoldsDefinitions m definitions.now → KeepsText text.old whole
        → KeepsText text.new (whole ++ (codes "list[" ++ (type_text m (tree_of item.now) ++ codes "]"))) }
{
    text.push("list[");
    push_type(definitions, item, text);
    text.push("]");
}

/// Appends the text of a dict with keys and values of two types.
#[cycle(push)]
fn push_dict(definitions: &Definitions<'_>, key: &BoxType, value: &BoxType, text: &mut ShortText)
    ensures { (m : ModuleOf) (whole : List ℕ) → HoldsDefinitions m definitions.now → KeepsText text.old whole
        → KeepsText text.new (whole ++ (codes "dict[" ++ (type_text m (tree_of key.now)
        ++ (codes ", " ++ (type_text m (tree_of value.now) ++ codes "]"))))) }
{
    text.push("dict[");
    push_type(definitions, key, text);
    text.push(", ");
    push_type(definitions, value, text);
    text.push("]");
}

/// Appends the text of a tuple with parts of these types.
#[cycle(push)]
fn push_tuple(definitions: &Definitions<'_>, parts: &[BoxType], text: &mut ShortText)
    ensures { (m : ModuleOf) (whole : List ℕ) → HoldsDefinitions m definitions.now → KeepsText text.old whole
        → KeepsText text.new (whole ++ (codes "tuple[" ++ (parts_text m (trees_in parts.now) ++ codes "]"))) }
{
    text.push("tuple[");
    push_parts(definitions, parts, text);
    text.push("]");
}

/// Appends the texts of the parts of a tuple with commas between them, or `()` if there is none.
#[cycle(push)]
fn push_parts(definitions: &Definitions<'_>, parts: &[BoxType], text: &mut ShortText)
    ensures { (m : ModuleOf) (whole : List ℕ) → HoldsDefinitions m definitions.now → KeepsText text.old whole
        → KeepsText text.new (whole ++ parts_text m (trees_in parts.now)) }
{
    match parts.split_first() {
        None => text.push("()"),
        Some((first, others)) => {
            push_type(definitions, first, text);
            push_further(definitions, others, text);
        }
    }
}

/// Appends the texts of further parts of a tuple, each after a comma.
#[cycle(push)]
fn push_further(definitions: &Definitions<'_>, parts: &[BoxType], text: &mut ShortText)
    ensures { (m : ModuleOf) (whole : List ℕ) → HoldsDefinitions m definitions.now → KeepsText text.old whole
        → KeepsText text.new (whole ++ further_parts_text m (trees_in parts.now)) }
{
    for part in parts {
        text.push(", ");
        push_type(definitions, part, text);
    }
}

/// Appends the text of a union, given its first member and the others.
#[cycle(push)]
fn push_union(
    definitions: &Definitions<'_>,
    first: &BoxType,
    others: &BoxType,
    text: &mut ShortText,
)
    ensures { (m : ModuleOf) (whole : List ℕ) → HoldsDefinitions m definitions.now → KeepsText text.old whole
        → KeepsText text.new (whole ++ (type_text m (tree_of first.now)
        ++ (codes " | " ++ type_text m (tree_of others.now)))) }
{
    push_type(definitions, first, text);
    text.push(" | ");
    push_type(definitions, others, text);
}
