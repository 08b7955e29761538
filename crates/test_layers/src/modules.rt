//! The findings of single layers in a module: of its names, of the codes that prevent running; and the names that it
//! has.
use crate::conditions::condition_text;
use pc_front::read_module;
use pc_scope::scopes;
use pc_scope_findings::scope_findings;
use pc_source::{Fault, OutOfMemory};
use pc_stopping::{find_in_classes, find_in_scopes, stops};
use pc_tree::{Findings, FuncDef, ItemKind, Module, Name, add_bound};
use std::alloc::{AllocError, Global};

/// Returns the findings of one layer in a module, by the part of the table: of names and misplaced statements
/// (`FINDINGS`), of the codes that prevent running (`STOPS`), or only those of names (`IN_SCOPES`) or of members.
fn found_in(alloc: Global, part: &str, module: &Module) -> Result<Findings, OutOfMemory> {
    let mut found = Vec::new(alloc);
    match part {
        "FINDINGS" => return scope_findings(alloc, module, &scopes(alloc, module)?),
        "STOPS" => return stops(alloc, module.keys, module),
        "IN_SCOPES" => find_in_scopes(&mut found, alloc, module.keys, module)?,
        _ => find_in_classes(&mut found, alloc, module.keys, module)?,
    }
    Ok(found)
}

/// Returns findings as a text: the code of each, its label, and the bytes at which it starts and ends.
fn listed(alloc: Global, found: &Findings) -> Result<String, AllocError> {
    let mut text = String::new(alloc);
    for finding in found {
        let (code, label) = (finding.code.text(), finding.code.label());
        let (start, end) = (finding.place.start, finding.place.end);
        write!(text, "{code} {label} {start} {end} ")?;
    }
    if text.is_empty() {
        text.push_str("none")?;
    }
    Ok(text)
}

/// Returns the names that the statements of a function bind, each with the byte at which it starts.
fn bound_by(alloc: Global, def: &FuncDef) -> Result<String, OutOfMemory> {
    let mut names: Vec<&Name> = Vec::new(alloc);
    add_bound(&mut names, &def.body)?;
    let mut text = String::new(alloc);
    for name in &names {
        write!(text, "{} {} ", name.text.as_str(), name.place.start)?;
    }
    Ok(text)
}

/// Returns the names of the items of a module: after each constant the bytes at which its value and its annotation
/// start, after each class the names of its members, and after each function the names that its statements bind.
fn names_in(alloc: Global, module: &Module) -> Result<String, OutOfMemory> {
    let mut text = String::new(alloc);
    for item in &module.items {
        write!(text, "{} ", item.name().text.as_str())?;
        match &item.kind {
            ItemKind::Constant(constant) => {
                write!(text, "{} ", constant.value.place().start)?;
                if let Some(annotation) = &constant.annotation {
                    write!(text, ":{} ", annotation.place().start)?;
                }
            }
            ItemKind::Class(class) => {
                for member in &class.members {
                    write!(text, ".{} ", member.name().text.as_str())?;
                }
            }
            ItemKind::Def(def) => text.push_str(bound_by(alloc, def)?.as_str())?,
        }
    }
    Ok(text)
}

/// Returns the answer to a module in a part of this name.
pub fn module_text(alloc: Global, part: &str, text: &str) -> Result<String, Fault> {
    let module = read_module(alloc, text.as_bytes())?;
    match part {
        "NAMES" => return Ok(names_in(alloc, &module)?),
        "CONDITIONS" => return Ok(condition_text(alloc, &module)?),
        _ => {}
    }
    let found = found_in(alloc, part, &module)?;
    Ok(listed(alloc, &found)?)
}
