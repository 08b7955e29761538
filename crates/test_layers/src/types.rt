//! Types as annotations spell them, in both stores.
use crate::questions::{Question, built_type_text, store_answer};
use pc_annotations::{ModuleOutline, parents_of};
use pc_front::read_module;
use pc_intern::InternStore;
use pc_scope::scopes;
use pc_source::{Fault, OutOfMemory};
use pc_tree::Module;
use pc_types::{BoxStore, TypeStore};
use std::alloc::{AllocError, Global};
use test_rows::{BETWEEN, TableFault, Tally};

/// The lines after the types of a row in its module.
const TAIL: &str = "def main():\n    pass\nmain()\n";

/// The line between the head of the modules and the rows.
const ROWS: &str = "rows:\n";

/// The start of a line that is no row.
const COMMENT: &str = "# ";

/// A row of a table: the question, its types, and the answer that the table expects.
#[derive(Drop)]
struct TableRow<'a> {
    question: Question,
    first: &'a str,
    second: &'a str,
    want: &'a str,
}

/// Returns the question that a word names.
fn question_of(word: &str) -> Option<Question> {
    match word {
        "flow" => Some(Question::Flow),
        "join" => Some(Question::Join),
        "join_all" => Some(Question::JoinAll),
        "nodes" => Some(Question::Nodes),
        "parts" => Some(Question::Parts),
        "members" => Some(Question::Members),
        "copy" => Some(Question::Copy),
        "taken" => Some(Question::Taken),
        "made" => Some(Question::Made),
        _ => None,
    }
}

/// Returns the row of a line. A single type counts as the second, too.
fn row_of(line: &str) -> Option<TableRow<'_>> {
    let (word, rest) = line.split_once(" ; ")?;
    let (types, want) = rest.rsplit_once(" ; ")?;
    let (first, second) = types.split_once(" ; ").unwrap_or((types, types));
    Some(TableRow {
        question: question_of(word)?,
        first,
        second,
        want,
    })
}

/// Appends a constant annotated with a type to a module; without an annotation for `Never`.
fn add_constant(text: &mut String, name: &str, ty: &str) -> Result<(), AllocError> {
    if ty == "Never" {
        write!(text, "{name} = 1\n")
    } else {
        write!(text, "{name}: {ty} = 1\n")
    }
}

/// Returns the text of the module of a row, whose constants have the types in question.
fn module_of(alloc: Global, head: &str, row: &TableRow) -> Result<String, AllocError> {
    let mut text = String::from_str(alloc, head)?;
    match row.question {
        Question::Made => {}
        _ => {
            add_constant(&mut text, "s", row.first)?;
            add_constant(&mut text, "t", row.second)?;
        }
    }
    text.push_str(TAIL)?;
    Ok(text)
}

/// Returns the answer of a store to a row whose module was read.
fn answer_in<S: TypeStore>(
    store: &mut S,
    alloc: Global,
    module: &Module,
    row: &TableRow,
) -> Result<String, Fault> {
    let scopes = scopes(alloc, module)?;
    let parents = parents_of(alloc, module, &scopes)?;
    let outline = ModuleOutline {
        tree: module,
        scopes: &scopes,
        parents: &parents,
    };
    match row.question {
        Question::Made => Ok(built_type_text(store, alloc, module, row.first)?),
        question => Ok(store_answer(store, alloc, &outline, question)?),
    }
}

/// Returns the answer of a store to a row.
fn answer_of<S: TypeStore>(
    store: &mut S,
    alloc: Global,
    head: &str,
    row: &TableRow,
) -> Result<String, Fault> {
    let text = module_of(alloc, head, row)?;
    let module = read_module(alloc, text.as_bytes())?;
    answer_in(store, alloc, &module, row)
}

/// Returns the answer of both stores to a row, `nothing` if it is empty, or both answers if they differ.
fn ask(
    alloc: Global,
    numbers: &mut InternStore,
    boxes: &mut BoxStore,
    head: &str,
    row: &TableRow,
) -> Result<String, Fault> {
    let by_numbers = answer_of(numbers, alloc, head, row)?;
    let by_boxes = answer_of(boxes, alloc, head, row)?;
    if by_numbers.as_str() != by_boxes.as_str() {
        return Ok(format!(in alloc; "{by_numbers} by numbers, {by_boxes} by boxes")?);
    }
    if by_numbers.is_empty() {
        return Ok(String::from_str(alloc, "nothing")?);
    }
    Ok(by_numbers)
}

/// Counts the rows of a part of a table that agree and differ.
fn count_rows(
    alloc: Global,
    numbers: &mut InternStore,
    boxes: &mut BoxStore,
    part: &str,
    tally: &mut Tally,
) -> Result<(), TableFault> {
    let (head, rows) = part.split_once(ROWS).ok_or(TableFault::Form)?;
    for line in rows.lines() {
        if line.starts_with(COMMENT) {
            continue;
        }
        let row = row_of(line).ok_or(TableFault::Form)?;
        let got = match ask(alloc, numbers, boxes, head, &row) {
            Ok(answer) => answer,
            Err(fault) => format!(in alloc; "{fault}")?,
        };
        tally.count(line, row.want, got.as_str())?;
    }
    Ok(())
}

/// Returns a store of types as numbers, with the class hierarchy of a module.
fn store_of(alloc: Global, module: &Module) -> Result<InternStore, OutOfMemory> {
    let scopes = scopes(alloc, module)?;
    let parents = parents_of(alloc, module, &scopes)?;
    InternStore::new(alloc, module.keys, parents)
}

/// Returns a store of types as numbers, with the class hierarchy of a module's head.
fn store_for(alloc: Global, head: &str) -> Result<InternStore, Fault> {
    let text = format!(in alloc; "{head}{TAIL}")?;
    let module = read_module(alloc, text.as_bytes())?;
    Ok(store_of(alloc, &module)?)
}

/// Counts the rows of a table, twice over, so that each is asked again after all others. One store of each kind answers
/// all of them, with the class hierarchy of the first part.
pub fn count_types(alloc: Global, table: &str, tally: &mut Tally) -> Result<(), TableFault> {
    let (head, _) = table.split_once(ROWS).ok_or(TableFault::Form)?;
    let mut numbers = store_for(alloc, head).map_err(|_| TableFault::Form)?;
    let mut boxes = BoxStore::new();
    for _ in 0..2 {
        for part in table.split(BETWEEN) {
            count_rows(alloc, &mut numbers, &mut boxes, part, tally)?;
        }
    }
    Ok(())
}
