//! Framed messages, read from memory and written to it.
use pc_source::Counted;
use pc_wire::{
    FrameFault, HeaderFault, MESSAGE_LIMIT, framed, read_message, write_message, write_whole,
};
use std::alloc::Global;
use std::test::Fail;

/// Two messages, the second empty, with fields in other orders and cases.
const TWO: &[u8] =
    b"content-length: 2\r\nContent-Type: x\r\n\r\n{}Content-Type: y\r\nCONTENT-LENGTH:0\r\n\r\n";

/// Returns the fault of the first message of some bytes; `None` if there is none, or no byte.
fn fault_of(alloc: Global, bytes: &[u8]) -> Option<FrameFault> {
    let mut device = Counted::new(bytes);
    read_message(alloc, &mut device).err()
}

#[test]
fn reads_messages_to_the_end(rt: HostRuntime) -> Result<(), Fail> {
    let mut device = Counted::new(TWO);
    let first = read_message(rt.alloc(), &mut device)?;
    assert!(rt; first.is_some_and(|message| message.as_slice() == b"{}".as_slice()));
    let second = read_message(rt.alloc(), &mut device)?;
    assert!(rt; second.is_some_and(|message| message.is_empty()));
    assert!(rt; read_message(rt.alloc(), &mut device)?.is_none());
    Ok(())
}

#[test]
fn tells_what_is_wrong_with_a_message(rt: HostRuntime) {
    let alloc = rt.alloc();
    let cut = fault_of(alloc, b"Content-Length: 3\r\n\r\n{}");
    assert!(rt; matches!(cut, Some(FrameFault::Cut)));
    let none = fault_of(alloc, b"Content-Type: x\r\n\r\n{}");
    assert!(rt; matches!(none, Some(FrameFault::Header(HeaderFault::NoLength))));
    let cut_and_long = fault_of(alloc, b"Content-Length: 16777217\r\n\r\n{}");
    assert!(rt; matches!(cut_and_long, Some(FrameFault::Cut)));
}

#[test]
fn reads_on_after_a_long_message(rt: HostRuntime) -> Result<(), Fail> {
    let alloc = rt.alloc();
    let mut long = Vec::new(alloc);
    long.resize(MESSAGE_LIMIT + 1, b' ')?;
    let mut given = framed(alloc, &long)?;
    given.extend_from_slice(TWO)?;
    let mut device = Counted::new(given.as_slice());
    let fault = read_message(alloc, &mut device).err();
    assert!(rt; matches!(fault, Some(FrameFault::LongMessage)));
    let next = read_message(alloc, &mut device)?;
    assert!(rt; next.is_some_and(|message| message.as_slice() == b"{}".as_slice()));
    Ok(())
}

#[test]
fn writes_a_message_with_its_length(rt: HostRuntime) -> Result<(), Fail> {
    let mut device = Counted::new(Vec::new(rt.alloc()));
    write_message(rt.alloc(), &mut device, b"{}")?;
    let more = framed(rt.alloc(), b"[1]")?;
    write_whole(&mut device, &more)?;
    let wanted = b"Content-Length: 2\r\n\r\n{}Content-Length: 3\r\n\r\n[1]".as_slice();
    assert!(rt; device.inner().as_slice() == wanted);
    Ok(())
}
