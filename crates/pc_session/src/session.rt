//! The state of a session, and the change that a message makes to it.

ghost use Rattle.std.specs.Prelude.{◌≡◌, OnOk, OnErr};

use pc_documents::{Document, Settings, WARNING, forget, put, remove};
use pc_position::Encoding;
use pc_source::OutOfMemory;
use serde_json::Value;
use std::alloc::Global;

/// The stage of a session.
#[derive(Clone, Copy, Debug, PartialEq, Eq)]
pub enum Stage {
    /// `initialize` has not arrived yet.
    Fresh,
    /// Requests are answered.
    Running,
    /// `shutdown` has arrived.
    ShutDown,
    /// `exit` has arrived; the program ends with this status.
    Ended(u8),
}

/// A session: its stage, the settings agreed at `initialize`, and the open documents.
#[derive(Debug, Drop)]
pub struct Session {
    pub stage: Stage,
    pub settings: Settings,
    pub documents: Vec<Document>,
}

/// The change that a message makes to a session.
#[derive(Drop)]
pub(crate) enum SessionChange {
    Nothing,
    ToStage(Stage),
    Begin(Settings),
    Put(Document),
    Remove(usize),
    Forget,
}

/// The replies to a message, and the change that the message makes.
#[derive(Drop)]
pub(crate) struct Answer {
    pub replies: Vec<Value>,
    pub change: SessionChange,
}

impl Session {
    ghost use Rattle.pc_session.specs.Answers.{after};
    ghost use Rattle.pc_session.specs.Sessions.{forgot};
    ghost use Rattle.pc_session.specs.States.{state_of, fresh};

    /// Returns a session in which `initialize` has not arrived yet.
    pub fn new(alloc: Global) -> Session
        ensures { state_of result ≡ fresh }
    {
        Session {
            stage: Stage::Fresh,
            settings: Settings {
                encoding: Encoding::Utf16,
                dynamic_severity: WARNING,
                codes_page: None,
                pulls: false,
                related: false,
            },
            documents: Vec::new(alloc),
        }
    }

    /// Forgets the texts of all open documents, as after a lost message. Allocates no memory.
    pub fn forget(&mut self)
        ensures { state_of self.new ≡ forgot (state_of self.old) }
    {
        forget(&mut self.documents);
    }

    /// Applies a change to the session.
    pub(crate) fn apply(&mut self, change: SessionChange) -> Result<(), OutOfMemory>
        ensures changed { OnOk result (state_of self.new ≡ after change (state_of self.old)) }
        ensures unchanged { OnErr result (state_of self.new ≡ state_of self.old) }
    {
        match change {
            SessionChange::Nothing => {}
            SessionChange::ToStage(stage) => self.stage = stage,
            SessionChange::Begin(settings) => {
                self.settings = settings;
                self.stage = Stage::Running;
            }
            SessionChange::Put(document) => put(&mut self.documents, document)?,
            SessionChange::Remove(place) => remove(&mut self.documents, place),
            SessionChange::Forget => self.forget(),
        }
        Ok(())
    }
}
