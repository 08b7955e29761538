//! Messages from a device, and replies to another.

ghost use Rattle.std.specs.Prelude.{◌≡◌, ℕ, List, OnOk, OnErr, IfErr};
ghost use Rattle.pc_source.specs.Taken.{TakesAll};
ghost use Rattle.pc_wire.specs.Frames.{IsShort, IsLong};
ghost use Rattle.pc_session.specs.States.{state_of};
ghost use Rattle.pc_message_loop.specs.Runs.{no_memory, ended_with, TakesSome, IsBegun, IsWritten, IsTurned, OnStop, OnEnd};

use pc_documents::Checker;
use pc_session::{Session, Stage, refuse_long, step};
use pc_source::Counted;
use pc_wire::{FrameFault, SendFault, read_message, write_whole};
use std::alloc::Global;
use std::io::{Read, Write};

/// The way the answering of messages ended.
#[derive(Debug, Drop)]
pub enum ServingEnd {
    /// `exit` was received; the program ends with this status.
    Exited(u8),
    /// The input ended, between two messages.
    Ended,
    /// The input breaks off inside a message, or is not framed.
    Broken(FrameFault),
    /// A device failed.
    Failed,
}

/// Returns the reply if an allocation failed: a framed message, which itself needs no memory.
fn without_memory() -> &'static str
    ensures { result.now ≡ no_memory }
{
    "Content-Length: 151\r\n\r\n{\"jsonrpc\":\"2.0\",\"method\":\"window/logMessage\",\
    \"params\":{\"message\":\"out of memory: a message was lost, and no text is known until it changes\",\"type\":1}}"
}

/// Returns the exit status of the program once `exit` is received; `None` before.
fn ended_with(stage: Stage) -> Option<u8>
    ensures { result ≡ ended_with stage }
{
    match stage {
        Stage::Ended(status) => Some(status),
        Stage::Fresh | Stage::Running | Stage::ShutDown => None,
    }
}

/// Writes bytes and flushes the device.
#[tactic(auto, using(crate::proofs::Turns::some_none, crate::proofs::Turns::some_all))]
fn written<W: Write + Drop>(output: &mut Counted<W>, bytes: &[u8]) -> Result<(), SendFault>
    ensures written { OnOk result (TakesAll W.contents bytes.now output.old output.new) }
    ensures begun { OnErr result (TakesSome W.contents bytes.now output.old output.new) }
{
    write_whole(output, bytes)?;
    match output.flush() {
        Ok(()) => Ok(()),
        Err(_) => Err(SendFault::Write),
    }
}

/// Informs the client that an allocation failed.
fn told<W: Write + Drop>(output: &mut Counted<W>) -> Result<(), SendFault>
    ensures written { OnOk result (TakesAll W.contents no_memory output.old output.new) }
    ensures begun { OnErr result (TakesSome W.contents no_memory output.old output.new) }
{
    written(output, without_memory().as_bytes())
}

/// Handles a message lost because an allocation failed: forgets all texts and informs the client.
fn lost<C: Checker, W: Write + Drop>(
    checker: &C,
    session: &mut Session,
    output: &mut Counted<W>,
) -> Result<(), SendFault>
    ensures written { OnOk result ((message : List ℕ) → IsWritten (C.answers checker.now) W.contents message
        (state_of session.old) (state_of session.new) output.old output.new) }
    ensures begun { OnErr result ((message : List ℕ) → IsBegun (C.answers checker.now) W.contents message
        (state_of session.old) output.old output.new) }
{
    let _ = checker;
    session.forget();
    told(output)
}

/// Answers a message that is within the limit.
#[tactic(auto, using(crate::proofs::Turns::some_of_step))]
fn answered<C: Checker, W: Write + Drop>(
    alloc: Global,
    checker: &C,
    session: &mut Session,
    message: &[u8],
    output: &mut Counted<W>,
) -> Result<(), SendFault>
    requires { IsShort message.now }
    ensures written { OnOk result (IsWritten (C.answers checker.now) W.contents message.now (state_of session.old)
        (state_of session.new) output.old output.new) }
    ensures begun { OnErr result (IsBegun (C.answers checker.now) W.contents message.now (state_of session.old)
        output.old output.new) }
{
    match step(session, checker, alloc, message) {
        Ok(bytes) => written(output, &bytes),
        Err(_) => lost(checker, session, output),
    }
}

/// Refuses a message over the limit, whose content is not known.
#[tactic(auto, using(crate::proofs::Turns::some_of_refusal))]
fn refused<C: Checker, W: Write + Drop>(
    alloc: Global,
    checker: &C,
    session: &mut Session,
    output: &mut Counted<W>,
) -> Result<(), SendFault>
    ensures written { OnOk result ((message : List ℕ) → IsLong message → IsWritten (C.answers checker.now) W.contents
        message (state_of session.old) (state_of session.new) output.old output.new) }
    ensures begun { OnErr result ((message : List ℕ) → IsLong message → IsBegun (C.answers checker.now) W.contents
        message (state_of session.old) output.old output.new) }
{
    match refuse_long(session, alloc) {
        Ok(refusal) => written(output, &refusal),
        Err(_) => lost(checker, session, output),
    }
}

/// Reads a message and answers it. A message that does not fit in memory is lost, and the client is informed.
#[tactic(auto, using(crate::proofs::Turns::halted))]
fn turn<C: Checker, R: Read + Drop, W: Write + Drop>(
    alloc: Global,
    checker: &C,
    session: &mut Session,
    input: &mut Counted<R>,
    output: &mut Counted<W>,
) -> Result<(), ServingEnd>
    ensures turn { OnOk result (IsTurned (C.answers checker.now) R.remaining W.contents (state_of session.old)
        (state_of session.new) input.old input.new output.old output.new) }
    ensures stop { IfErr result (OnStop (C.answers checker.now) R.remaining W.contents (state_of session.old) input.old
        input.new output.old output.new) }
{
    let done = match read_message(alloc, input) {
        Ok(Some(message)) => answered(alloc, checker, session, &message, output),
        Ok(None) => return Err(ServingEnd::Ended),
        Err(FrameFault::OutOfMemory) => lost(checker, session, output),
        Err(FrameFault::LongMessage) => refused(alloc, checker, session, output),
        Err(FrameFault::Read) => return Err(ServingEnd::Failed),
        Err(fault) => return Err(ServingEnd::Broken(fault)),
    };
    match done {
        Ok(()) => Ok(()),
        Err(_) => Err(ServingEnd::Failed),
    }
}

/// Answers the messages of a device until `exit` or the end of the input; returns the way it ended.
pub fn serve<C: Checker, R: Read + Drop, W: Write + Drop>(
    alloc: Global,
    checker: &C,
    input: &mut Counted<R>,
    output: &mut Counted<W>,
) -> ServingEnd
    ensures { OnEnd (C.answers checker.now) R.remaining W.contents input.old input.new output.old output.new result }
{
    let mut session = Session::new(alloc);
    'messages: for _ in 0..u64::MAX {
        match turn(alloc, checker, &mut session, input, output) {
            Ok(()) => {}
            Err(end) => return end,
        }
        if let Some(status) = ended_with(session.stage) {
            return ServingEnd::Exited(status);
        }
    }
    ServingEnd::Failed
}
