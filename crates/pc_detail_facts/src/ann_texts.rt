//! The texts of annotations as details tell them.

ghost use Rattle.std.specs.Prelude.{◌++◌, [], ℕ, List, codes, if◌then◌else◌};
ghost use Rattle.pc_tree.specs.Tree.{ann_of, name_of};
ghost use Rattle.pc_annotations.specs.Listed.{anns_of_list};
ghost use Rattle.pc_detail_rules.specs.Written.{ann_text, anns_text};
ghost use Rattle.pc_detail_texts.specs.Shortened.{KeepsText};

use pc_detail_texts::ShortText;
use pc_tree::{Ann, Name};

/// Appends the text of an annotation.
#[cycle(push_ann)]
pub(crate) fn push_ann(ann: &Ann, text: &mut ShortText)
    ensures { (whole : List ℕ) → KeepsText text.old whole → KeepsText text.new (whole ++ ann_text (ann_of ann.now)) }
{
    match ann {
        Ann::Name(name) => text.push(name.text.as_str()),
        Ann::NoneValue(_) => text.push("None"),
        Ann::Apply {
            head,
            arguments,
            ..
        } => push_applied(head, arguments, text),
        Ann::ApplyEmpty(_, head) => {
            text.push(head.text.as_str());
            text.push("[()]");
        }
        Ann::Union(_, parts) => push_anns(parts, " | ", text),
    }
}

/// Appends the text of a name with arguments in brackets.
#[cycle(push_ann)]
fn push_applied(head: &Name, arguments: &[Ann], text: &mut ShortText)
    ensures { (whole : List ℕ) → KeepsText text.old whole → KeepsText text.new (whole ++ ((name_of head.now).text
        ++ (codes "[" ++ (anns_text (codes ", ") (anns_of_list arguments.now) ++ codes "]")))) }
{
    text.push(head.text.as_str());
    text.push("[");
    push_anns(arguments, ", ", text);
    text.push("]");
}

/// Appends a separator, unless nothing comes before it.
fn push_gap(is_first: bool, separator: &str, text: &mut ShortText)
    ensures { (whole : List ℕ) → KeepsText text.old whole
        → KeepsText text.new (whole ++ (if is_first then [] else separator.now)) }
{
    if is_first {
        return;
    }
    text.push(separator);
}

/// Appends the texts of annotations with a separator between them.
#[cycle(push_ann)]
fn push_anns(anns: &[Ann], separator: &str, text: &mut ShortText)
    ensures { (whole : List ℕ) → KeepsText text.old whole
        → KeepsText text.new (whole ++ anns_text separator.now (anns_of_list anns.now)) }
{
    let mut is_first = true;
    for ann in anns {
        push_gap(is_first, separator, text);
        push_ann(ann, text);
        is_first = false;
    }
}
