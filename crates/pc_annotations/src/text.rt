//! Types written as text.

ghost use Rattle.std.specs.Prelude.{◌≡◌, ◌++◌, codes, IfOk, OnOk, string_bytes};
ghost use Rattle.std.specs.Option.{option_map};
ghost use Rattle.pc_tree.specs.Tree.{module_of};
ghost use Rattle.pc_annotations.specs.Named.{named_module};
ghost use Rattle.pc_annotations.specs.Text.{type_text, part_texts, before, texts_with, plain_text};

use crate::names::ClassNames;
use pc_source::OutOfMemory;
use pc_tree::Module;
use pc_types::{Head, TypeStore};
use std::alloc::Global;

/// Returns the text of a type without parts, given its head; `None` for a list, a dict, a tuple or a union.
fn plain_text<'n>(names: &'n ClassNames<'_>, head: Head) -> Option<&'n str>
    ensures { option_map (λ s. s.now) result ≡ plain_text (named_module names.now) head }
{
    match head {
        Head::Any => Some("Any"),
        Head::Object => Some("object"),
        Head::Never => Some("Never"),
        Head::Int => Some("int"),
        Head::Bool => Some("bool"),
        Head::Str => Some("str"),
        Head::None => Some("None"),
        Head::Class(number) => Some(names.name(number)),
        Head::List | Head::Dict | Head::Tuple(_) | Head::Union(_) => None,
    }
}

/// Appends a separator, unless `number` is 0.
fn separate(out: &mut String, number: usize, separator: &str) -> Result<(), OutOfMemory>
    ensures { OnOk result (string_bytes out.new ≡ string_bytes out.old ++ before number separator.now) }
{
    if number > 0 {
        out.push_str(separator)?;
    }
    Ok(())
}

/// Appends the text of a type.
#[cycle(write)]
fn write_type<S: TypeStore>(
    store: &S,
    alloc: Global,
    names: &ClassNames<'_>,
    ty: &S::Ty,
    out: &mut String,
) -> Result<(), OutOfMemory>
    requires { S.has store.now ty.now }
    ensures { OnOk result (string_bytes out.new
        ≡ string_bytes out.old ++ type_text (named_module names.now) (S.tree ty.now)) }
{
    let head = store.head(ty);
    if let Some(text) = plain_text(names, head) {
        out.push_str(text)?;
        return Ok(());
    }
    match head {
        Head::List => write_applied(store, alloc, names, "list[", ty, out),
        Head::Dict => write_applied(store, alloc, names, "dict[", ty, out),
        Head::Tuple(_) => write_applied(store, alloc, names, "tuple[", ty, out),
        _ => write_parts(store, alloc, names, " | ", ty, out),
    }
}

/// Appends a name with an opening bracket, the texts of the parts of a type, and the closing bracket.
#[cycle(write)]
fn write_applied<S: TypeStore>(
    store: &S,
    alloc: Global,
    names: &ClassNames<'_>,
    name: &str,
    ty: &S::Ty,
    out: &mut String,
) -> Result<(), OutOfMemory>
    requires { S.has store.now ty.now }
    ensures { OnOk result (string_bytes out.new ≡ string_bytes out.old
        ++ (name.now ++ (texts_with (codes ", ") (part_texts (named_module names.now) (S.tree ty.now)) ++ codes "]"))) }
{
    out.push_str(name)?;
    write_parts(store, alloc, names, ", ", ty, out)?;
    out.push_str("]")?;
    Ok(())
}

/// Appends the texts of the parts of a type with a separator between them, or `()` if there is none.
#[cycle(write)]
fn write_parts<S: TypeStore>(
    store: &S,
    alloc: Global,
    names: &ClassNames<'_>,
    separator: &str,
    ty: &S::Ty,
    out: &mut String,
) -> Result<(), OutOfMemory>
    requires { S.has store.now ty.now }
    ensures { OnOk result (string_bytes out.new
        ≡ string_bytes out.old ++ texts_with separator.now (part_texts (named_module names.now) (S.tree ty.now))) }
{
    let parts = store.parts(alloc, ty)?;
    if parts.is_empty() {
        out.push_str("()")?;
        return Ok(());
    }
    for i in 0..parts.len() {
        separate(out, i, separator)?;
        write_type(store, alloc, names, &parts[i], out)?;
    }
    Ok(())
}

/// Returns the text of a type of a module: `Any`, `object`, `Never`, `int`, `bool`, `str`, `None`, the name of a class
/// in normal form NFKC, `list[T]`, `dict[K, V]`, `tuple[S, T]`, `tuple[()]`, and the members of a union in order with `
/// ` between them. Typing specification, "Type annotations"; PEP 604.
///
/// # Errors
///
/// `OutOfMemory` only if an allocation failed.
pub fn named_text<S: TypeStore>(
    store: &S,
    alloc: Global,
    names: &ClassNames<'_>,
    ty: &S::Ty,
) -> Result<String, OutOfMemory>
    requires { S.has store.now ty.now }
    ensures { IfOk result (λ s. string_bytes s ≡ type_text (named_module names.now) (S.tree ty.now)) }
{
    let mut out = String::new(alloc);
    write_type(store, alloc, names, ty, &mut out)?;
    Ok(out)
}

/// Returns the text of a type of a module, like `named_text`, which takes less time for many types, since it is given
/// the names of the classes.
///
/// # Errors
///
/// As for `named_text`.
pub fn type_text<S: TypeStore>(
    store: &S,
    alloc: Global,
    tree: &Module,
    ty: &S::Ty,
) -> Result<String, OutOfMemory>
    requires { S.has store.now ty.now }
    ensures { IfOk result (λ s. string_bytes s ≡ type_text (module_of tree.now) (S.tree ty.now)) }
{
    let names = ClassNames::of(alloc, tree)?;
    named_text(store, alloc, &names, ty)
}
