//! Sessions over a checker that tells details of its findings.
use pc_documents::{CheckOutcome, Checker, FlowTypes, ReportedFinding, ToldDetail};
use pc_session::{Session, step};
use pc_source::{OutOfMemory, Place};
use pc_tree::{Code, Finding};
use pc_wire::framed;
use std::alloc::Global;
use std::test::Fail;

/// A checker that finds the same in each text: a name that is bound twice, a flow with its detail, and one without.
struct Telling;

/// Returns a finding with a detail.
fn told(
    alloc: Global,
    code: Code,
    place: Place,
    flow: Option<FlowTypes>,
    sentence: &str,
    others: &[Place],
) -> Result<ReportedFinding, OutOfMemory> {
    Ok(ReportedFinding {
        finding: Finding { place, code },
        flow,
        detail: Some(ToldDetail {
            sentence: String::from_str(alloc, sentence)?,
            others: Vec::from_slice(alloc, others)?,
        }),
    })
}

/// Returns the two types of a flow.
fn types(alloc: Global) -> Result<FlowTypes, OutOfMemory> {
    Ok(FlowTypes {
        from: String::from_str(alloc, "Any")?,
        to: String::from_str(alloc, "int")?,
    })
}

impl Checker for Telling {
    ghost use Rattle.std.specs.Prelude.{⊤};

    ghost answers = { λ _ text found. ⊤ };

    fn find(&self, alloc: Global, text: &str) -> Result<CheckOutcome, OutOfMemory> {
        let _ = text;
        let mut items = Vec::new(alloc);
        let name = Place { start: 4, end: 5 };
        let first = Place { start: 0, end: 1 };
        let second = Place { start: 2, end: 3 };
        let others = [second, first];
        items.push(told(alloc, Code::E01, name, None, "_x_ * [y]", &others)?)?;
        let flow = Some(types(alloc)?);
        items.push(told(alloc, Code::A1, name, flow, "cannot tell", &[])?)?;
        items.push(ReportedFinding {
            finding: Finding {
                place: name,
                code: Code::A1,
            },
            flow: Some(types(alloc)?),
            detail: None,
        })?;
        Ok(CheckOutcome::Items(items))
    }

    fn type_at(
        &self,
        alloc: Global,
        text: &str,
        byte: usize,
    ) -> Result<Option<String>, OutOfMemory> {
        let _ = alloc;
        let _ = text;
        let _ = byte;
        Ok(None)
    }
}

const BEGIN: &str = "{\"id\":1,\"method\":\"initialize\",\"params\":{}}";

const BEGIN_RELATED: &str = "\
{\"id\":1,\"method\":\"initialize\",\"params\":{\"capabilities\":{\"textDocument\":\
{\"publishDiagnostics\":{\"relatedInformation\":true}}}}}";

const BEGIN_UNRELATED: &str = "\
{\"id\":1,\"method\":\"initialize\",\"params\":{\"capabilities\":{\"textDocument\":\
{\"publishDiagnostics\":{\"relatedInformation\":false}}}}}";

const OPEN: &str = "\
{\"method\":\"textDocument/didOpen\",\"params\":{\"textDocument\":{\"uri\":\"a\",\"version\":3,\
\"text\":\"x\\nx\\nx\\n\"}}}";

const ASK_HOVER: &str = "\
{\"id\":2,\"method\":\"textDocument/hover\",\"params\":{\"textDocument\":{\"uri\":\"a\"},\
\"position\":{\"line\":2,\"character\":0}}}";

const HOVER: &str = "\
{\"id\":2,\"jsonrpc\":\"2.0\",\"result\":{\"contents\":{\"kind\":\"markdown\",\"value\":\
\"**E01** twice\\n\\n```text\\n_x_ * [y]\\n```\\n\\nA name is bound again.\\n\\n\
Give each one a name of its own.\\n\\n---\\n\\n\
**A1** any-flow\\n\\n```text\\ncannot tell\\n```\\n\\n\
A value fits where it goes only if `Any` happens to stand for the right type.\\n\\n\
Annotate the source of the value, or test it with `isinstance`; if the value is in error itself, mend that.\\n\\n---\\n\\n\
**A1** any-flow: `Any` to `int`\\n\\n\
A value fits where it goes only if `Any` happens to stand for the right type.\\n\\n\
Annotate the source of the value, or test it with `isinstance`; if the value is in error itself, mend that.\"}}}";

const OPEN_MODULE: &str = "\
{\"method\":\"textDocument/didOpen\",\"params\":{\"textDocument\":{\"uri\":\"a\",\"version\":3,\
\"text\":\"from __future__ import annotations\\nX = 1\\ndef main():\\n    print(X)\\nmain()\\n\"}}}";

const ASK_NAME: &str = "\
{\"id\":2,\"method\":\"textDocument/hover\",\"params\":{\"textDocument\":{\"uri\":\"a\"},\
\"position\":{\"line\":3,\"character\":10}}}";

const DECLARATION: &str = "\
{\"id\":2,\"jsonrpc\":\"2.0\",\"result\":{\"contents\":{\"kind\":\"markdown\",\"value\":\
\"```python\\nX = 1\\n```\"}}}";

/// The publication of the findings, up to the range of the first one.
const BEFORE: &str = "\
{\"jsonrpc\":\"2.0\",\"method\":\"textDocument/publishDiagnostics\",\"params\":{\"diagnostics\":[\
{\"code\":\"E01\",\"message\":\"_x_ * [y]\",\
\"range\":{\"end\":{\"character\":1,\"line\":2},\"start\":{\"character\":0,\"line\":2}},";

/// The related information of the first finding.
const RELATED: &str = "\
\"relatedInformation\":[\
{\"location\":{\"range\":{\"end\":{\"character\":1,\"line\":1},\"start\":{\"character\":0,\"line\":1}},\"uri\":\"a\"},\
\"message\":\"see here\"},\
{\"location\":{\"range\":{\"end\":{\"character\":1,\"line\":0},\"start\":{\"character\":0,\"line\":0}},\"uri\":\"a\"},\
\"message\":\"see here\"}],";

/// The publication of the findings, from the severity of the first one.
const AFTER: &str = "\
\"severity\":1,\"source\":\"pycheck\"},\
{\"code\":\"A1\",\"message\":\"cannot tell\",\
\"range\":{\"end\":{\"character\":1,\"line\":2},\"start\":{\"character\":0,\"line\":2}},\
\"severity\":2,\"source\":\"pycheck\"},\
{\"code\":\"A1\",\"message\":\
\"Any -> int: A value fits where it goes only if `Any` happens to stand for the right type.\",\
\"range\":{\"end\":{\"character\":1,\"line\":2},\"start\":{\"character\":0,\"line\":2}},\
\"severity\":2,\"source\":\"pycheck\"}],\"uri\":\"a\",\"version\":3}}";

/// Returns the frame of texts, one after another.
fn frame_of(alloc: Global, texts: &[&str]) -> Result<Vec<u8>, Fail> {
    let mut bytes = Vec::new(alloc);
    for text in texts {
        bytes.extend_from_slice(text.as_bytes())?;
    }
    Ok(framed(alloc, &bytes)?)
}

#[test]
fn a_detail_is_told_with_its_places(rt: HostRuntime) -> Result<(), Fail> {
    let alloc = rt.alloc();
    let mut session = Session::new(alloc);
    step(&mut session, &Telling, alloc, BEGIN_RELATED.as_bytes())?;
    let given = step(&mut session, &Telling, alloc, OPEN.as_bytes())?;
    assert!(rt; given == frame_of(alloc, &[BEFORE, RELATED, AFTER])?);
    Ok(())
}

#[test]
fn places_are_told_where_they_are_accepted(rt: HostRuntime) -> Result<(), Fail> {
    let alloc = rt.alloc();
    for begin in [BEGIN, BEGIN_UNRELATED] {
        let mut session = Session::new(alloc);
        step(&mut session, &Telling, alloc, begin.as_bytes())?;
        let given = step(&mut session, &Telling, alloc, OPEN.as_bytes())?;
        assert!(rt; given == frame_of(alloc, &[BEFORE, AFTER])?);
    }
    Ok(())
}

#[test]
fn a_hover_explains_by_the_sentence(rt: HostRuntime) -> Result<(), Fail> {
    let alloc = rt.alloc();
    let mut session = Session::new(alloc);
    step(&mut session, &Telling, alloc, BEGIN.as_bytes())?;
    step(&mut session, &Telling, alloc, OPEN.as_bytes())?;
    let given = step(&mut session, &Telling, alloc, ASK_HOVER.as_bytes())?;
    assert!(rt; given == frame_of(alloc, &[HOVER])?);
    Ok(())
}

#[test]
fn a_hover_has_the_declaration(rt: HostRuntime) -> Result<(), Fail> {
    let alloc = rt.alloc();
    let mut session = Session::new(alloc);
    step(&mut session, &Telling, alloc, BEGIN.as_bytes())?;
    step(&mut session, &Telling, alloc, OPEN_MODULE.as_bytes())?;
    let given = step(&mut session, &Telling, alloc, ASK_NAME.as_bytes())?;
    assert!(rt; given == frame_of(alloc, &[DECLARATION])?);
    Ok(())
}
