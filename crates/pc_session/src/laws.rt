//! The laws of whole sessions, over any checker.

ghost use Rattle.pc_session.specs.Exchanges.{IsDetermined, SessionsStayInStep, RepliesAreDetermined, SessionsGoOn};

use pc_documents::Checker;

/// The law that after any messages from a fresh session what the client was sent is in step with the session: no two open
/// documents have the same URI; the last publication for each document whose diagnostics are sent is that of its text and
/// version, unless a message was lost since for want of memory, as the log was told; the last one for a document that is
/// not open has no diagnostics; and a client that pulls diagnostics was sent none.
pub fn sessions_stay_in_step<C: Checker>()
    ensures { (checker : C) → SessionsStayInStep (C.answers checker) }
{}

/// The law that the replies to messages are determined, if the answers about a text do not contradict each other.
pub fn replies_are_determined<C: Checker>()
    ensures { (checker : C) → IsDetermined (C.answers checker) → RepliesAreDetermined (C.answers checker) }
{}

/// The law that the replies to messages begin with the replies to the first of them.
pub fn sessions_go_on<C: Checker>()
    ensures { (checker : C) → SessionsGoOn (C.answers checker) }
{}
