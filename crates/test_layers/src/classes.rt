//! Class tables of modules, and the findings in their classes, by `pc_class`.
ghost use Rattle.std.specs.Prelude.{◌≡◌, All};
ghost use Rattle.pc_tree.specs.Tree.{module_of};
ghost use Rattle.pc_scope.specs.ModuleScopes.{AreScopes};
ghost use Rattle.pc_types.specs.Boxed.{IsGiven, tree_of};
ghost use Rattle.pc_class.specs.Facts.{classes_of};
ghost use Rattle.pc_class.specs.Tables.{HasParameter, HasMethod, HasEntries, classes_with};

use pc_annotations::type_text;
use pc_class::{ClassTable, Listing, Method, Parameter, class_table};
use pc_front::parse_source;
use pc_overrides::override_findings;
use pc_scope::{Scopes, scopes};
use pc_source::{Fault, Source, read_source};
use pc_tree::{Finding, Findings, ItemKind, Member, Module};
use pc_types::{BoxStore, BoxType};
use std::alloc::{AllocError, Global};
use test_rows::{BETWEEN, ROW, TableFault, Tally};

/// The first three lines of each module of a table.
const HEADERS: &str = "\
from __future__ import annotations
from dataclasses import dataclass
from typing import Any
";

/// The last lines of each module of a table.
const TAIL: &str = "def main():\n    pass\nmain()\n";

/// Returns the names of the classes of a module, by their numbers.
fn class_names(alloc: Global, tree: &Module) -> Result<Vec<&str>, AllocError> {
    let mut names = Vec::new(alloc);
    for item in &tree.items {
        if let ItemKind::Class(class) = &item.kind {
            names.push(class.name.text.as_str())?;
        }
    }
    Ok(names)
}

/// Appends each method name that is not yet among `names`.
fn add_methods<'m>(names: &mut Vec<&'m str>, members: &'m [Member]) -> Result<(), AllocError> {
    for member in members {
        if let Member::Method(method) = member {
            let name = method.name.text.as_str();
            if !names.contains(&name) {
                names.push(name)?;
            }
        }
    }
    Ok(())
}

/// Returns the names of the methods of a module, each once.
fn method_names(alloc: Global, tree: &Module) -> Result<Vec<&str>, AllocError> {
    let mut names = Vec::new(alloc);
    for item in &tree.items {
        if let ItemKind::Class(class) = &item.kind {
            add_methods(&mut names, &class.members)?;
        }
    }
    Ok(names)
}

/// Returns a parameter or a field as `x: int`, with ` =` if it has a default.
fn parameter_text(
    alloc: Global,
    tree: &Module,
    parameter: &Parameter<BoxType>,
) -> Result<String, Fault>
    requires { HasParameter IsGiven parameter.now }
{
    let ty = type_text(&BoxStore::new(), alloc, tree, &parameter.ty)?;
    let label = if parameter.has_default { " =" } else { "" };
    Ok(format!(in alloc; "{}: {ty}{label}", parameter.name)?)
}

/// Returns parameters with commas between them.
fn parameters_text(
    alloc: Global,
    tree: &Module,
    parameters: &[Parameter<BoxType>],
) -> Result<String, Fault>
    requires { All (HasParameter IsGiven) parameters.now }
{
    let mut out = String::new(alloc);
    for i in 0..parameters.len() {
        if i > 0 {
            out.push_str(", ")?;
        }
        let parameter = parameter_text(alloc, tree, &parameters[i])?;
        out.push_str(parameter.as_str())?;
    }
    Ok(out)
}

/// Appends a method, with its class, its number there, its parameters and its return type.
fn add_method(
    alloc: Global,
    tree: &Module,
    classes: &[&str],
    method: &Method<BoxType>,
    out: &mut String,
) -> Result<(), Fault>
    requires { HasMethod IsGiven method.now }
{
    let owner = classes.get(method.owner).copied().unwrap_or("no class");
    let parameters = parameters_text(alloc, tree, method.params.as_slice())?;
    let ret = type_text(&BoxStore::new(), alloc, tree, &method.ret)?;
    let (name, number) = (&method.name, method.number);
    writeln!(
        out,
        "method {name} of {owner} {number} ({parameters}) -> {ret}"
    )?;
    Ok(())
}

/// Appends the method of a name in a class, if it has one.
fn add_method_named(
    alloc: Global,
    tree: &Module,
    classes: &[&str],
    table: &ClassTable<BoxType>,
    class: usize,
    name: &str,
    out: &mut String,
) -> Result<(), Fault>
    requires { HasEntries IsGiven table.now }
{
    match table.method(class, name) {
        None => Ok(()),
        Some(method) => add_method(alloc, tree, classes, method, out),
    }
}

/// Returns the field of a name in a class, or `no field`.
fn field_named(
    alloc: Global,
    tree: &Module,
    table: &ClassTable<BoxType>,
    class: usize,
    name: &str,
) -> Result<String, Fault>
    requires { HasEntries IsGiven table.now }
{
    match table.field(class, name) {
        None => Ok(String::from_str(alloc, "no field")?),
        Some(field) => parameter_text(alloc, tree, field),
    }
}

/// Appends the name of a class, its base, and the classes that it is equal to or below.
fn add_class(
    classes: &[&str],
    table: &ClassTable<BoxType>,
    class: usize,
    name: &str,
    out: &mut String,
) -> Result<(), AllocError> {
    write!(out, "class {name}")?;
    if let Some(base) = table.parents().base(class) {
        let base = classes.get(base).copied().unwrap_or("no class");
        write!(out, "({base})")?;
    }
    out.push_str(" is")?;
    for (other, name) in classes.iter().enumerate() {
        if table.is_sub(class, other) {
            write!(out, " {name}")?;
        }
    }
    out.push_str("\n")
}

/// Appends a field, and the field found by its name if that is another one.
fn add_field(
    alloc: Global,
    tree: &Module,
    table: &ClassTable<BoxType>,
    class: usize,
    field: &Parameter<BoxType>,
    out: &mut String,
) -> Result<(), Fault>
    requires table { HasEntries IsGiven table.now }
    requires field { HasParameter IsGiven field.now }
{
    let text = parameter_text(alloc, tree, field)?;
    writeln!(out, "field {text}")?;
    let named = field_named(alloc, tree, table, class, field.name.as_str())?;
    if named.as_str() != text.as_str() {
        writeln!(out, "by its name {named}")?;
    }
    Ok(())
}

/// Appends the fields of a class, in order.
fn add_fields(
    alloc: Global,
    tree: &Module,
    table: &ClassTable<BoxType>,
    class: usize,
    out: &mut String,
) -> Result<(), Fault>
    requires { HasEntries IsGiven table.now }
{
    let fields = Listing::Fields(table, class);
    for place in 0..fields.len() {
        if let Some(field) = fields.at(place) {
            add_field(alloc, tree, table, class, field, out)?;
        }
    }
    Ok(())
}

/// Appends each field of a class that is not the one found at its place, and their number if not as many have a place.
fn add_misplaced(
    alloc: Global,
    table: &ClassTable<BoxType>,
    class: usize,
    out: &mut String,
) -> Result<(), Fault> {
    let placed = Listing::Fields(table, class);
    let fields = table.fields(alloc, class)?;
    if fields.len() != placed.len() {
        writeln!(out, "fields {}", fields.len())?;
    }
    for place in 0..fields.len() {
        let field = fields[place];
        match placed.at(place) {
            Some(other) if other.name.as_str() == field.name.as_str() => {}
            _ => writeln!(out, "at {place} {}", field.name)?,
        }
    }
    Ok(())
}

/// Appends the fields of a class, and its method of each name.
fn add_members(
    alloc: Global,
    tree: &Module,
    table: &ClassTable<BoxType>,
    class: usize,
    classes: &[&str],
    methods: &[&str],
    out: &mut String,
) -> Result<(), Fault>
    requires { HasEntries IsGiven table.now }
{
    add_fields(alloc, tree, table, class, out)?;
    add_misplaced(alloc, table, class, out)?;
    for method in methods {
        add_method_named(alloc, tree, classes, table, class, method, out)?;
    }
    Ok(())
}

/// Appends each class with its members, and the number of classes if the table has another one.
fn add_table(
    alloc: Global,
    tree: &Module,
    table: &ClassTable<BoxType>,
    out: &mut String,
) -> Result<(), Fault>
    requires { HasEntries IsGiven table.now }
{
    let classes = class_names(alloc, tree)?;
    let methods = method_names(alloc, tree)?;
    for (class, name) in classes.iter().enumerate() {
        add_class(&classes, table, class, name, out)?;
        add_members(alloc, tree, table, class, &classes, &methods, out)?;
    }
    if classes.len() != table.count() {
        writeln!(out, "classes {}", table.count())?;
    }
    Ok(())
}

/// Appends each finding, by its line and column, and the text at its place.
fn add_findings(source: &Source, found: &[Finding], out: &mut String) -> Result<(), AllocError> {
    for finding in found {
        let (start, end) = (finding.place.start, finding.place.end);
        let (line, column) = source.line_col(start);
        let at = source.text().get(start..end).unwrap_or("no place");
        writeln!(out, "{line}:{column} {} {at}", finding.code.text())?;
    }
    Ok(())
}

/// Returns the content of a class table, and the findings in the classes.
fn told(
    alloc: Global,
    source: &Source,
    tree: &Module,
    table: &ClassTable<BoxType>,
    found: &[Finding],
) -> Result<String, Fault>
    requires { HasEntries IsGiven table.now }
{
    let mut out = String::new(alloc);
    add_table(alloc, tree, table, &mut out)?;
    add_findings(source, found, &mut out)?;
    Ok(out)
}

/// Returns the content of a class table, and the findings in the classes and their overrides.
fn judged(
    store: &mut BoxStore,
    source: &Source,
    tree: &Module,
    table: &ClassTable<BoxType>,
    found: &mut Findings,
) -> Result<String, Fault>
    requires classes { classes_with tree_of table.now ≡ classes_of (module_of tree.now) }
    requires entries { HasEntries IsGiven table.now }
{
    let alloc = *found.allocator();
    override_findings(store, tree, table, found)?;
    told(alloc, source, tree, table, found)
}

/// Returns the content of a module's class table, and the findings in its classes.
fn described(
    alloc: Global,
    source: &Source,
    tree: &Module,
    scopes: &Scopes,
) -> Result<String, Fault>
    requires { AreScopes (module_of tree.now) scopes.now }
{
    let mut store = BoxStore::new();
    let mut found = Vec::new(alloc);
    let table = class_table(&mut store, alloc, tree, scopes, &mut found)?;
    judged(&mut store, source, tree, &table, &mut found)
}

/// Returns the content of the class table of a module that was read, and the findings in its classes.
fn reading_in(alloc: Global, source: &Source, tree: &Module) -> Result<String, Fault> {
    let scopes = scopes(alloc, tree)?;
    described(alloc, source, tree, &scopes)
}

/// Returns the content of the class table of the module that a text spells, and the findings in its classes.
fn reading(alloc: Global, text: &str) -> Result<String, Fault> {
    let source = read_source(alloc, text.as_bytes())?;
    let tree = parse_source(alloc, &source)?;
    reading_in(alloc, &source, &tree)
}

/// Returns the class table and findings of a text's module, or its refusal.
fn answer_to(alloc: Global, text: &str) -> Result<String, AllocError> {
    match reading(alloc, text) {
        Ok(answer) => Ok(answer),
        Err(fault) => format!(in alloc; "{fault}"),
    }
}

/// Returns a module of a table, and its expected class table.
fn case_of(alloc: Global, lines: &str) -> Result<(String, String), AllocError> {
    let mut text = String::from_str(alloc, HEADERS)?;
    let mut table = String::new(alloc);
    for line in lines.lines() {
        match line.strip_prefix(ROW) {
            Some(row) => writeln!(table, "{row}")?,
            None => writeln!(text, "{line}")?,
        }
    }
    text.push_str(TAIL)?;
    Ok((text, table))
}

/// Counts the modules of a table that agree and differ.
pub fn count_classes(alloc: Global, table: &str, tally: &mut Tally) -> Result<(), TableFault> {
    for lines in table.split(BETWEEN) {
        let (text, want) = case_of(alloc, lines)?;
        let got = answer_to(alloc, text.as_str())?;
        tally.count(text.as_str(), want.as_str(), got.as_str())?;
    }
    Ok(())
}
