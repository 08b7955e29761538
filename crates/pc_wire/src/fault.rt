//! Reasons why no message was read or written.

ghost use Rattle.std.specs.Prelude.{◌≡◌};
ghost use Rattle.pc_wire.specs.declared.fault.FrameFault.TheVariants as frame_fault;
ghost use Rattle.pc_wire.specs.declared.fault.SendFault.TheVariants as send_fault;

use std::alloc::AllocError;
use thiserror::Error;

/// The reason why a header gives no length. Language Server Protocol 3.17, "Header Part".
#[derive(Clone, Copy, Debug, PartialEq, Eq, Error)]
pub enum HeaderFault {
    /// A line of the header has no colon.
    #[error("a line of a header without a colon")]
    BadField,
    /// The length is not a number that fits 64 bits.
    #[error("a Content-Length that is no number")]
    BadLength,
    /// The header gives no length.
    #[error("a header without Content-Length")]
    NoLength,
    /// The header gives two lengths.
    #[error("a header with two lengths")]
    TwoLengths,
}

/// The reason why no message was read. Language Server Protocol 3.17, "Base Protocol"; the limits are own rules of the
/// server.
#[derive(Clone, Copy, Debug, PartialEq, Eq, Error)]
pub enum FrameFault {
    /// The message could not be allocated. It was read whole and is lost.
    #[error("out of memory")]
    OutOfMemory,
    /// The device failed.
    #[error("the input could not be read")]
    Read,
    /// The input ends inside a message.
    #[error("the input ends inside a message")]
    Cut,
    /// The header does not end within 8,192 bytes.
    #[error("a header of more than 8,192 bytes")]
    LongHeader,
    /// The header gives no length.
    #[error("{0}")]
    Header(HeaderFault),
    /// The message is longer than 16,777,216 bytes. It was read whole and is lost.
    #[error("a message of more than 16,777,216 bytes")]
    LongMessage,
}

impl From<HeaderFault> for FrameFault {
    ghost from_gives = { λ f e. e ≡ frame_fault.Header f };

    fn from(fault: HeaderFault) -> FrameFault {
        FrameFault::Header(fault)
    }
}

impl From<AllocError> for FrameFault {
    ghost from_gives = { λ _ e. e ≡ frame_fault.OutOfMemory };

    fn from(_error: AllocError) -> FrameFault {
        FrameFault::OutOfMemory
    }
}

/// The reason why a message was not written. Own rule of the server.
#[derive(Clone, Copy, Debug, PartialEq, Eq, Error)]
pub enum SendFault {
    /// An allocation failed.
    #[error("out of memory")]
    OutOfMemory,
    /// The device failed.
    #[error("the output could not be written")]
    Write,
}

impl From<AllocError> for SendFault {
    ghost from_gives = { λ _ e. e ≡ send_fault.OutOfMemory };

    fn from(_error: AllocError) -> SendFault {
        SendFault::OutOfMemory
    }
}
