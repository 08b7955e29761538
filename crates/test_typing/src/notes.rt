//! Notes as they are collected, by `pc_notes`, and the findings of notes as a table writes them.
use pc_notes::Notes;
use pc_source::{OutOfMemory, Place};
use pc_tree::{Code, Finding, Keys, Module};
use pc_types::{BoxStore, BoxType, TypeStore};
use std::alloc::Global;

/// Returns findings in order: the code of each, whether it is an error, and the bytes at which it starts and ends.
pub fn listed(alloc: Global, notes: &Notes) -> Result<String, OutOfMemory> {
    let mut text = String::new(alloc);
    for finding in &notes.findings(alloc)? {
        let (code, start, end) = (finding.code.text(), finding.place.start, finding.place.end);
        let kind = if finding.code.is_error() {
            "error"
        } else {
            "dynamic"
        };
        write!(text, "{code} {kind} {start} {end}; ")?;
    }
    Ok(text)
}

/// Returns the place from one byte up to another.
fn place(start: usize, end: usize) -> Place {
    Place { start, end }
}

/// Returns a finding at the place from one byte up to another.
fn at(start: usize, end: usize, code: Code) -> Finding {
    Finding {
        place: place(start, end),
        code,
    }
}

/// Returns notes of an error and of four flows: three at one place, the second of which is wrong, and then one at an
/// earlier place.
fn some_notes(alloc: Global) -> Result<Notes, OutOfMemory> {
    let store = BoxStore::new();
    let mut notes = Notes::new(alloc);
    notes.put(place(3, 4), Code::E13)?;
    let here = at(5, 8, Code::A1);
    notes.put_flow(&store, alloc, here, &BoxType::Any, &BoxType::Int)?;
    let wrong = at(5, 8, Code::E12);
    notes.put_flow(&store, alloc, wrong, &BoxType::Str, &BoxType::Bool)?;
    notes.put_flow(&store, alloc, here, &BoxType::Any, &BoxType::Str)?;
    let earlier = at(1, 2, Code::A1);
    notes.put_flow(&store, alloc, earlier, &BoxType::Object, &BoxType::Bool)?;
    Ok(notes)
}

/// Returns the codes of the findings of these notes and of one more, in order.
fn codes(alloc: Global) -> Result<String, OutOfMemory> {
    let mut notes = some_notes(alloc)?;
    let later = at(0, 1, Code::E02);
    notes.put_all(&[later])?;
    let mut codes = String::new(alloc);
    for finding in &notes.findings(alloc)? {
        write!(codes, "{} ", finding.code.text())?;
    }
    Ok(codes)
}

/// Returns the heads of the types of the flow with a code explained at a place.
fn explained(alloc: Global, code: Code, at: Place) -> Result<String, OutOfMemory> {
    let notes = some_notes(alloc)?;
    let mut store = BoxStore::new();
    match notes.explain(&mut store, alloc, code, at)? {
        Some((from, into)) => {
            let (from, into) = (store.head(&from), store.head(&into));
            Ok(format!(in alloc; "{from:?} into {into:?}")?)
        }
        None => Ok(String::from_str(alloc, "none")?),
    }
}

/// Returns the flows with a code of these notes, in a module without items: the bytes of each place, and the texts of
/// the two types.
fn texts(alloc: Global, code: Code) -> Result<String, OutOfMemory> {
    // The keys of the empty text, which spells no item.
    let keys = Keys::of(b"");
    let module = Module {
        imports_dataclass: false,
        imports_any: false,
        items: Vec::new(alloc),
        main: place(0, 1),
        keys,
    };
    let notes = some_notes(alloc)?;
    let mut texts = String::new(alloc);
    for (at, from, into) in &notes.texts(alloc, &module, code)? {
        write!(texts, "{} {} {from} into {into}; ", at.start, at.end)?;
    }
    Ok(texts)
}

/// Returns the answer to a row in a part of this name.
pub fn note_text(alloc: Global, part: &str) -> Result<String, OutOfMemory> {
    match part {
        "CODES" => codes(alloc),
        "FIRST" => explained(alloc, Code::A1, place(5, 8)),
        "WRONG" => explained(alloc, Code::E12, place(5, 8)),
        "ERROR" => explained(alloc, Code::E13, place(3, 4)),
        "OTHER" => explained(alloc, Code::A1, place(5, 9)),
        "MISFITS" => texts(alloc, Code::E12),
        _ => texts(alloc, Code::A1),
    }
}
