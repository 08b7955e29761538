//! Traces: the events of a run and its end.

ghost use Rattle.std.specs.Prelude.{◌≡◌, ◌++◌, IfOk, OnOk, string_bytes};
ghost use Rattle.pc_run.specs.Traces.{word_of, end_of_rust, event_line, trace_lines};

use pc_source::{OutOfMemory, Place};
use std::alloc::{AllocError, Global};

/// The end of a run. Own rule of the profile.
#[derive(Clone, Copy, Debug, PartialEq, Eq)]
pub enum End {
    /// `main` ended.
    Done,
    TypeError,
    AttributeError,
    NameError,
    UnboundLocalError,
    /// Any other exception.
    Other,
    /// The run left the profile.
    Outside,
    /// The run was cut off: no fuel was left, a call was too deep, or a whole number did not fit 128 bits.
    Cut,
}

impl End {
    /// Returns the end as it is printed.
    pub fn word(self) -> &'static str
        ensures { result.now ≡ word_of (end_of_rust self) }
    {
        match self {
            End::Done => "Done",
            End::TypeError => "TypeError",
            End::AttributeError => "AttributeError",
            End::NameError => "NameError",
            End::UnboundLocalError => "UnboundLocalError",
            End::Other => "Other",
            End::Outside => "Outside",
            End::Cut => "Cut",
        }
    }
}

/// The trace of a run: the places that it evaluated, in order, and its end.
#[derive(Debug, Drop)]
pub struct Trace {
    pub events: Vec<Place>,
    pub end: End,
}

/// Returns the trace as text: for each event a line with the bytes at which its place starts and ends, then a line with
/// `end` and the word of the end. Own rule of the profile.
///
/// # Errors
///
/// `OutOfMemory` if an allocation failed.
pub fn trace_text(alloc: Global, trace: &Trace) -> Result<String, OutOfMemory>
    ensures { IfOk result (λ text. string_bytes text ≡ trace_lines trace.now.events.items (end_of_rust trace.now.end)) }
{
    let mut text = String::new(alloc);
    for event in &trace.events {
        add_event(alloc, &mut text, *event)?;
    }
    let word = trace.end.word();
    let last = format!(in alloc; "end {word}\n")?;
    text.push_str(last.as_str())?;
    Ok(text)
}

/// Adds the line of an event.
fn add_event(alloc: Global, text: &mut String, event: Place) -> Result<(), AllocError>
    ensures { OnOk result (string_bytes text.new ≡ string_bytes text.old ++ event_line event) }
{
    let start = event.start;
    let end = event.end;
    let line = format!(in alloc; "{start} {end}\n")?;
    text.push_str(line.as_str())
}
