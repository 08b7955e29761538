//! The rows of annotations.
use crate::rows::{TreePosition, list_name, list_node};
use pc_tree::Ann;
use std::alloc::AllocError;

/// Adds the rows of an annotation.
#[cycle(annotations)]
pub fn list_ann(out: &mut String, at: TreePosition, annotation: &Ann) -> Result<(), AllocError> {
    let place = annotation.place();
    match annotation {
        Ann::Name(name) => list_name(out, at, name),
        Ann::NoneValue(_) => list_node(out, at, "None", place),
        Ann::Apply {
            head,
            arguments,
            ..
        } => {
            list_node(out, at, "Apply", place)?;
            list_name(out, at.part("head"), head)?;
            list_anns(out, at.part("argument"), arguments)
        }
        Ann::ApplyEmpty(_, head) => {
            list_node(out, at, "ApplyEmpty", place)?;
            list_name(out, at.part("head"), head)
        }
        Ann::Union(_, parts) => {
            list_node(out, at, "Union", place)?;
            list_anns(out, at.part("member"), parts)
        }
    }
}

/// Adds the rows of annotations, each with this position.
#[cycle(annotations)]
fn list_anns(out: &mut String, at: TreePosition, annotations: &[Ann]) -> Result<(), AllocError> {
    for annotation in annotations {
        list_ann(out, at, annotation)?;
    }
    Ok(())
}

/// Adds the rows of an annotation that may be missing.
pub fn list_optional_ann(
    out: &mut String,
    at: TreePosition,
    annotation: &Option<Ann>,
) -> Result<(), AllocError> {
    match annotation {
        Some(annotation) => list_ann(out, at, annotation),
        None => Ok(()),
    }
}
