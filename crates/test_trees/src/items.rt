//! The rows of a module, its items and their members.
use crate::annotations::{list_ann, list_optional_ann};
use crate::expressions::{list_default, list_expr};
use crate::rows::{TreePosition, list_group, list_name, list_node};
use crate::statements::list_suite;
use pc_tree::{ClassDef, Constant, Field, FuncDef, Item, ItemKind, Member, Module, Param};
use std::alloc::AllocError;

/// Adds the rows of parameters.
fn list_params(out: &mut String, at: TreePosition, params: &[Param]) -> Result<(), AllocError> {
    for param in params {
        list_group(out, at, "Parameter")?;
        list_name(out, at.part("name"), &param.name)?;
        list_optional_ann(out, at.part("annotation"), &param.annotation)?;
        list_default(out, at.part("default"), &param.default)?;
    }
    Ok(())
}

/// Adds the rows of the parts of a function or a method.
fn list_def(out: &mut String, at: TreePosition, def: &FuncDef) -> Result<(), AllocError> {
    list_name(out, at.part("name"), &def.name)?;
    list_params(out, at.part("parameter"), &def.params)?;
    list_optional_ann(out, at.part("returns"), &def.returns)?;
    list_suite(out, at.part("body"), &def.body)
}

/// Adds the rows of the parts of a field.
fn list_field(out: &mut String, at: TreePosition, field: &Field) -> Result<(), AllocError> {
    list_name(out, at.part("name"), &field.name)?;
    list_ann(out, at.part("annotation"), &field.annotation)?;
    list_default(out, at.part("default"), &field.default)
}

/// Adds the rows of members of a class.
fn list_members(out: &mut String, at: TreePosition, members: &[Member]) -> Result<(), AllocError> {
    for member in members {
        match member {
            Member::Field(field) => {
                list_group(out, at, "Field")?;
                list_field(out, at, field)?;
            }
            Member::Method(def) => {
                list_group(out, at, "Method")?;
                list_def(out, at, def)?;
            }
        }
    }
    Ok(())
}

/// Adds the rows of the parts of a class.
fn list_class(out: &mut String, at: TreePosition, class: &ClassDef) -> Result<(), AllocError> {
    list_node(out, at.part("decorator"), "Word", class.decorator)?;
    list_name(out, at.part("name"), &class.name)?;
    if let Some(base) = &class.base {
        list_name(out, at.part("base"), base)?;
    }
    list_members(out, at.part("member"), &class.members)
}

/// Adds the rows of the parts of a constant.
fn list_constant(
    out: &mut String,
    at: TreePosition,
    constant: &Constant,
) -> Result<(), AllocError> {
    list_name(out, at.part("name"), &constant.name)?;
    list_optional_ann(out, at.part("annotation"), &constant.annotation)?;
    list_expr(out, at.part("value"), &constant.value)
}

/// Adds the rows of an item.
fn list_item(out: &mut String, at: TreePosition, item: &Item) -> Result<(), AllocError> {
    match &item.kind {
        ItemKind::Constant(constant) => {
            list_node(out, at, "Constant", item.first)?;
            list_constant(out, at, constant)
        }
        ItemKind::Class(class) => {
            list_node(out, at, "Class", item.first)?;
            list_class(out, at, class)
        }
        ItemKind::Def(def) => {
            list_node(out, at, "Def", item.first)?;
            list_def(out, at, def)
        }
    }
}

/// Adds the rows of a module. Its own place is that of `main` in the last line.
pub fn list_module(out: &mut String, module: &Module) -> Result<(), AllocError> {
    let at = TreePosition {
        depth: 0,
        role: "tree",
    };
    list_node(out, at, "Module", module.main)?;
    if module.imports_dataclass {
        list_group(out, at.part("header"), "Dataclass")?;
    }
    if module.imports_any {
        list_group(out, at.part("header"), "Any")?;
    }
    for item in &module.items {
        list_item(out, at.part("item"), item)?;
    }
    Ok(())
}
