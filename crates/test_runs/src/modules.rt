//! Modules built from the lines of a case, and their traces.

use crate::cases::Case;
use pc_commands::traced;
use pc_front::read_module;
use pc_run::{Trace, run, trace_text};
use pc_source::{Fault, OutOfMemory};
use pc_tree::Module;
use std::alloc::{AllocError, Global};

/// The first line of each module.
const HEADER: &str = "from __future__ import annotations\n";

/// Returns a module whose `main` has these statements, after the given lines.
pub fn module_of_statements(
    alloc: Global,
    before: &str,
    statements: &str,
) -> Result<String, AllocError> {
    let mut text = format!(in alloc; "{HEADER}{before}def main():\n")?;
    for line in statements.split('\n') {
        for part in ["    ", line, "\n"] {
            text.push_str(part)?;
        }
    }
    text.push_str("main()\n")?;
    Ok(text)
}

/// Returns a module of these lines, with its first and last line added.
pub fn module_of_lines(alloc: Global, lines: &str) -> Result<String, AllocError> {
    format!(in alloc; "{HEADER}{lines}\nmain()\n")
}

/// Returns the trace of a module that was read, run with the fuel and the choices of a case.
fn trace_in(alloc: Global, program: &Module, case: &Case) -> Result<Trace, OutOfMemory> {
    run(alloc, program, case.fuel, case.choices.as_slice())
}

/// Returns the trace of the module that a text spells, run with the fuel and the choices of a case.
fn run_of(alloc: Global, text: &str, case: &Case) -> Result<Trace, Fault> {
    let program = read_module(alloc, text.as_bytes())?;
    Ok(trace_in(alloc, &program, case)?)
}

/// Returns the lines of a trace, or the refusal that takes its place.
fn lines_of(alloc: Global, trace: Result<Trace, Fault>) -> Result<String, AllocError> {
    match trace {
        Ok(trace) => trace_text(alloc, &trace).map_err(|_| AllocError),
        Err(fault) => format!(in alloc; "{fault}"),
    }
}

/// Returns the lines of the trace of a module, or its refusal.
pub fn trace_of(alloc: Global, text: &str, case: &Case) -> Result<String, AllocError> {
    lines_of(alloc, run_of(alloc, text, case))
}

/// Returns the lines of the trace of the module that bytes spell, or its refusal, by the call that the program makes.
pub fn trace_of_bytes(alloc: Global, bytes: &[u8], case: &Case) -> Result<String, AllocError> {
    lines_of(
        alloc,
        traced(alloc, bytes, case.fuel, case.choices.as_slice()),
    )
}
