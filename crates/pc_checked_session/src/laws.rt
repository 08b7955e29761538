//! The laws about the diagnostics published for the texts of documents, and about whole sessions.

ghost use Rattle.pc_session.specs.Exchanges.{SessionsStayInStep, RepliesAreDetermined, SessionsGoOn};
ghost use Rattle.pc_message_loop.specs.Sessions.{SessionsAreWritten};
ghost use Rattle.pc_checked_session.specs.Found.{IsFoundIn};
ghost use Rattle.pc_checked_session.specs.Published.{DiagnosticsAreRows, LongTextsAreRefused};
ghost use Rattle.pc_checked_session.specs.Published.{OpenedTextsArePublished, ChangedTextsArePublished};

use std::io::{Read, Write};

/// The law that the diagnostics of a text are the rows of its report, for which the headline holds, in order, each with
/// the sentence and the other places of the detail that explains its finding, if it has one; or exactly one, at the byte
/// of its refusal. Of more than 1,000 rows they are the first 999, without details, and one that says how many more there
/// are.
pub fn diagnostics_are_rows()
    ensures { DiagnosticsAreRows }
{}

/// The law that a text of more than 1,048,576 bytes has exactly one diagnostic, its refusal at that byte.
pub fn long_texts_are_refused()
    ensures { LongTextsAreRefused }
{}

/// The law that `didOpen` is answered by exactly one notification, with the diagnostics of the opened text; by none if
/// it is not Python, or the client pulls diagnostics.
pub fn opened_texts_are_published()
    ensures { OpenedTextsArePublished }
{}

/// The law that `didChange` of an open document, to a version that is not older, is answered by exactly one
/// notification, with the diagnostics of the changed text; by none if it is not Python, or the client pulls
/// diagnostics.
pub fn changed_texts_are_published()
    ensures { ChangedTextsArePublished }
{}

/// The law that at each end the output took the frames of the replies, in a session from its beginning, to the messages
/// that the input gave: all of them, or a beginning of them if a device failed.
pub fn sessions_are_written<R: Read + Drop, W: Write + Drop>()
    ensures { SessionsAreWritten IsFoundIn R.remaining W.contents }
{}

/// The law that after any messages from a fresh session the client's view is in step with the session: no two open
/// documents have the same URI; the last publication for each document whose diagnostics are sent is that of its text
/// and version, unless a message was lost since for want of memory, and the log says so; the last one for a document
/// that is not open has no diagnostics; and a client that pulls diagnostics was sent none.
pub fn sessions_stay_in_step()
    ensures { SessionsStayInStep IsFoundIn }
{}

/// The law that the replies to messages begin with the replies to the first of them, so whatever holds after any messages
/// of a session holds after each.
pub fn sessions_go_on()
    ensures { SessionsGoOn IsFoundIn }
{}

/// The law that two sessions over the same messages, of which the same were lost for want of memory, write the same
/// replies and end in the same state.
pub fn replies_are_determined()
    ensures { RepliesAreDetermined IsFoundIn }
{}
