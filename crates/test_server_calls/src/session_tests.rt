//! Sessions with input and output in memory.
use pc_documents::{CheckOutcome, Checker};
use pc_message_loop::{ServingEnd, serve};
use pc_session::{Session, Stage, refuse_long, step};
use pc_source::{Counted, OutOfMemory, Refusal, RefusalCode};
use pc_wire::{MESSAGE_LIMIT, framed};
use std::alloc::Global;
use std::test::Fail;

/// A checker that refuses each text at its second byte.
struct Refusing;

impl Checker for Refusing {
    ghost use Rattle.std.specs.Prelude.{⊤};

    ghost answers = { λ _ text found. ⊤ };

    fn find(&self, alloc: Global, text: &str) -> Result<CheckOutcome, OutOfMemory> {
        let _ = alloc;
        let _ = text;
        Ok(CheckOutcome::Refused(Refusal {
            code: RefusalCode::L7,
            byte: 1,
        }))
    }

    fn type_at(
        &self,
        alloc: Global,
        text: &str,
        byte: usize,
    ) -> Result<Option<String>, OutOfMemory> {
        let _ = alloc;
        let _ = text;
        let _ = byte;
        Ok(None)
    }
}

const BEGIN: &str = "{\"id\":1,\"method\":\"initialize\",\"params\":{}}";

const BEGUN: &str = "\
{\"id\":1,\"jsonrpc\":\"2.0\",\"result\":{\"capabilities\":{\"definitionProvider\":true,\
\"diagnosticProvider\":{\"interFileDependencies\":false,\"workspaceDiagnostics\":false},\
\"documentSymbolProvider\":true,\"hoverProvider\":true,\"positionEncoding\":\"utf-16\",\
\"textDocumentSync\":{\"change\":1,\"openClose\":true}},\
\"serverInfo\":{\"name\":\"pycheck\",\"version\":\"1.0.0\"}}}";

const OPEN: &str =
    "{\"method\":\"textDocument/didOpen\",\"params\":{\"textDocument\":{\"uri\":\"a\",\"version\":3,\"text\":\"xy\"}}}";

/// The publication of the refusal at the second character.
const REFUSED: &str = "\
{\"jsonrpc\":\"2.0\",\"method\":\"textDocument/publishDiagnostics\",\"params\":{\"diagnostics\":[\
{\"code\":\"L7\",\"message\":\"There is a tab in the indentation of a line.\",\
\"range\":{\"end\":{\"character\":2,\"line\":0},\"start\":{\"character\":1,\"line\":0}},\
\"severity\":1,\"source\":\"pycheck\"}],\"uri\":\"a\",\"version\":3}}";

/// The publication of a document whose text is not known.
const UNKNOWN: &str = "\
{\"jsonrpc\":\"2.0\",\"method\":\"textDocument/publishDiagnostics\",\"params\":{\"diagnostics\":[\
{\"message\":\"not checked: the text of this document is not known until it changes\",\
\"range\":{\"end\":{\"character\":1,\"line\":0},\"start\":{\"character\":0,\"line\":0}},\
\"severity\":2,\"source\":\"pycheck\"}],\"uri\":\"a\",\"version\":3}}";

const LOGGED: &str = "\
{\"jsonrpc\":\"2.0\",\"method\":\"window/logMessage\",\"params\":{\"message\":\
\"a message was not read: the texts of the open documents are not known until they change\",\"type\":2}}";

const OPEN_MODULE: &str = "\
{\"method\":\"textDocument/didOpen\",\"params\":{\"textDocument\":{\"uri\":\"a\",\"version\":3,\
\"text\":\"from __future__ import annotations\\nX = 1\\ndef main():\\n    print(X)\\nmain()\\n\"}}}";

const ASK_SYMBOLS: &str =
    "{\"id\":2,\"method\":\"textDocument/documentSymbol\",\"params\":{\"textDocument\":{\"uri\":\"a\"}}}";

const SYMBOLS: &str = "\
{\"id\":2,\"jsonrpc\":\"2.0\",\"result\":[{\"children\":[],\"kind\":14,\"name\":\"X\",\
\"range\":{\"end\":{\"character\":1,\"line\":1},\"start\":{\"character\":0,\"line\":1}},\
\"selectionRange\":{\"end\":{\"character\":1,\"line\":1},\"start\":{\"character\":0,\"line\":1}}},\
{\"children\":[],\"kind\":12,\"name\":\"main\",\
\"range\":{\"end\":{\"character\":8,\"line\":2},\"start\":{\"character\":0,\"line\":2}},\
\"selectionRange\":{\"end\":{\"character\":8,\"line\":2},\"start\":{\"character\":4,\"line\":2}}}]}";

const ASK_DEFINITION: &str = "\
{\"id\":2,\"method\":\"textDocument/definition\",\"params\":{\"textDocument\":{\"uri\":\"a\"},\
\"position\":{\"line\":3,\"character\":10}}}";

const DEFINITION: &str = "\
{\"id\":2,\"jsonrpc\":\"2.0\",\"result\":[\
{\"range\":{\"end\":{\"character\":1,\"line\":1},\"start\":{\"character\":0,\"line\":1}},\"uri\":\"a\"}]}";

const TOO_LONG: &str =
    "{\"error\":{\"code\":-32600,\"message\":\"the message is longer than 16,777,216 bytes\"},\"id\":null,\"jsonrpc\":\"2.0\"}";

const EXIT: &str = "{\"method\":\"exit\"}";

/// Frames messages, one after another.
fn frames(alloc: Global, messages: &[&str]) -> Result<Vec<u8>, Fail> {
    let mut bytes = Vec::new(alloc);
    for message in messages {
        let frame = framed(alloc, message.as_bytes())?;
        bytes.extend_from_slice(&frame)?;
    }
    Ok(bytes)
}

#[test]
fn a_new_text_is_published_and_kept(rt: HostRuntime) -> Result<(), Fail> {
    let alloc = rt.alloc();
    let mut session = Session::new(alloc);
    let begun = step(&mut session, &Refusing, alloc, BEGIN.as_bytes())?;
    assert!(rt; begun == framed(alloc, BEGUN.as_bytes())?);
    let told = step(&mut session, &Refusing, alloc, OPEN.as_bytes())?;
    assert!(rt; told == framed(alloc, REFUSED.as_bytes())?);
    assert_eq!(rt; session.documents.len(), 1);
    assert!(rt; session.stage == Stage::Running);
    Ok(())
}

#[test]
fn symbols_are_those_of_the_module(rt: HostRuntime) -> Result<(), Fail> {
    let alloc = rt.alloc();
    let mut session = Session::new(alloc);
    step(&mut session, &Refusing, alloc, BEGIN.as_bytes())?;
    step(&mut session, &Refusing, alloc, OPEN_MODULE.as_bytes())?;
    let told = step(&mut session, &Refusing, alloc, ASK_SYMBOLS.as_bytes())?;
    assert!(rt; told == framed(alloc, SYMBOLS.as_bytes())?);
    Ok(())
}

#[test]
fn a_definition_is_the_place_of_a_binding(rt: HostRuntime) -> Result<(), Fail> {
    let alloc = rt.alloc();
    let mut session = Session::new(alloc);
    step(&mut session, &Refusing, alloc, BEGIN.as_bytes())?;
    step(&mut session, &Refusing, alloc, OPEN_MODULE.as_bytes())?;
    let told = step(&mut session, &Refusing, alloc, ASK_DEFINITION.as_bytes())?;
    assert!(rt; told == framed(alloc, DEFINITION.as_bytes())?);
    Ok(())
}

#[test]
fn texts_are_forgotten(rt: HostRuntime) -> Result<(), Fail> {
    let alloc = rt.alloc();
    let mut session = Session::new(alloc);
    step(&mut session, &Refusing, alloc, BEGIN.as_bytes())?;
    step(&mut session, &Refusing, alloc, OPEN.as_bytes())?;
    assert!(rt;
        session
            .documents
            .first()
            .is_some_and(|document| document.text.is_some())
    );
    session.forget();
    assert_eq!(rt; session.documents.len(), 1);
    assert!(rt;
        session
            .documents
            .first()
            .is_some_and(|document| document.text.is_none())
    );
    assert!(rt;
        session
            .documents
            .first()
            .is_some_and(|document| document.version == Some(3))
    );
    Ok(())
}

#[test]
fn a_long_message_is_refused(rt: HostRuntime) -> Result<(), Fail> {
    let alloc = rt.alloc();
    let mut session = Session::new(alloc);
    step(&mut session, &Refusing, alloc, BEGIN.as_bytes())?;
    step(&mut session, &Refusing, alloc, OPEN.as_bytes())?;
    let told = refuse_long(&mut session, alloc)?;
    assert!(rt; told == frames(alloc, &[TOO_LONG, UNKNOWN, LOGGED])?);
    assert!(rt;
        session
            .documents
            .first()
            .is_some_and(|document| document.text.is_none())
    );
    Ok(())
}

#[test]
fn a_long_message_is_read_away(rt: HostRuntime) -> Result<(), Fail> {
    let alloc = rt.alloc();
    let mut given = frames(alloc, &[BEGIN])?;
    let mut long = Vec::new(alloc);
    long.resize(MESSAGE_LIMIT + 1, b' ')?;
    given.extend_from_slice(&framed(alloc, &long)?)?;
    given.extend_from_slice(&frames(alloc, &[EXIT])?)?;
    let mut input = Counted::new(given.as_slice());
    let mut output = Counted::new(Vec::new(alloc));
    let end = serve(alloc, &Refusing, &mut input, &mut output);
    assert!(rt; matches!(end, ServingEnd::Exited(1)));
    let wanted = frames(alloc, &[BEGUN, TOO_LONG])?;
    assert!(rt; output.inner().as_slice() == wanted.as_slice());
    Ok(())
}

#[test]
fn messages_are_answered_up_to_exit(rt: HostRuntime) -> Result<(), Fail> {
    let alloc = rt.alloc();
    let given = frames(alloc, &[BEGIN, OPEN, EXIT, OPEN])?;
    let mut input = Counted::new(given.as_slice());
    let mut output = Counted::new(Vec::new(alloc));
    let end = serve(alloc, &Refusing, &mut input, &mut output);
    assert!(rt; matches!(end, ServingEnd::Exited(1)));
    let wanted = frames(alloc, &[BEGUN, REFUSED])?;
    assert!(rt; output.inner().as_slice() == wanted.as_slice());
    Ok(())
}

#[test]
fn a_broken_message_is_told(rt: HostRuntime) -> Result<(), Fail> {
    let alloc = rt.alloc();
    let mut output = Counted::new(Vec::new(alloc));
    let mut none = Counted::new(b"".as_slice());
    assert!(rt;
        matches!(
            serve(alloc, &Refusing, &mut none, &mut output),
            ServingEnd::Ended
        )
    );
    let mut cut = Counted::new(b"Content-Length: 9\r\n\r\n{}".as_slice());
    assert!(rt;
        matches!(
            serve(alloc, &Refusing, &mut cut, &mut output),
            ServingEnd::Broken(_)
        )
    );
    assert!(rt; output.inner().is_empty());
    Ok(())
}
