//! The listing of types that the library gives.

ghost use Rattle.std.specs.Prelude.{◌≡◌, ◌≤◌, length, IfOk, IfErr, Some};
ghost use Rattle.pc_report.specs.Writing.{IsWritten};
ghost use Rattle.pc_front.specs.Bytes.{IsRefusalOf};
ghost use Rattle.pc_top.specs.Streaming.{WhenRefused};
ghost use Rattle.pc_top.specs.TypesOfBytes.{listing_bytes};
ghost use Rattle.pycheck_library.specs.Answers.{IsRefused, IsListed};
ghost use Rattle.pycheck_library.specs.Room.{IsPut};

use crate::answer::{CheckAnswer, of_kind, refusal_answer, reported};
use crate::room::copy_into;
use pc_report::{TypeListing, WriteFault};
use pc_source::Counted;
use pc_top::{CheckFault, check, types_of};
use std::alloc::Global;

/// Writes a listing to a list of bytes, as JSON or as text.
fn write_listing(
    listing: &TypeListing,
    writer: &mut Counted<Vec<u8>>,
    json: bool,
) -> Result<(), WriteFault>
    ensures { IsWritten (λ v. Some v.items) (listing_bytes json listing.now) writer.old writer.new result }
{
    if json {
        listing.write_json(writer)
    } else {
        listing.write_text(writer)
    }
}

/// Puts a listing into the room, and returns how many bytes it has.
fn put_listing(
    alloc: Global,
    listing: &TypeListing,
    json: bool,
    room: &mut [u8],
) -> Result<usize, WriteFault>
    ensures length { IfOk result (λ n. n ≡ length (listing_bytes json listing.now)) }
    ensures put { IfOk result (λ _. IsPut (listing_bytes json listing.now) room.old room.new) }
    ensures untouched { IfErr result (λ _. room.new ≡ room.old) }
{
    let mut writer = Counted::new(Vec::new(alloc));
    write_listing(listing, &mut writer, json)?;
    let bytes = writer.inner();
    copy_into(room, bytes.as_slice());
    Ok(bytes.len())
}

/// Lists the types of the module that bytes spell, and puts the listing into the room. The answer has the numbers of
/// its report.
fn listed(
    alloc: Global,
    bytes: &[u8],
    json: bool,
    room: &mut [u8],
) -> Result<CheckAnswer, CheckFault>
    ensures listed { IfOk result (λ a. (a.kind ≡ 0) × IsListed bytes.now json room.old room.new a) }
    ensures refused { IfErr result (WhenRefused (IsRefusalOf bytes.now)) }
    ensures within { IfErr result (WhenRefused (λ refusal. refusal.byte ≤ length bytes.now)) }
    ensures untouched { IfErr result (λ _. room.new ≡ room.old) }
{
    let report = check(alloc, bytes)?;
    let listing = types_of(alloc, bytes)?;
    let length = put_listing(alloc, &listing, json, room)?;
    Ok(reported(&report, length))
}

/// Lists the types of bytes as `types_of` does, and puts the listing into a room, as JSON or as text. Where the room has
/// less than the `length` of the answer, nothing is put there: call again with more room.
///
/// The answer says by its `kind` what there is. With 0 it is a listing: the bytes spell exactly one module, and the rows
/// are exactly the types under its one lawful labelling; the numbers of errors and of dynamic places are those of its
/// report. With 1 the bytes spell no module, and their refusal is told. With 2 an allocation failed. Without a listing
/// the room stays as it is.
///
/// Own rule of the profile.
#[unsafe(no_mangle)]
pub extern "C" fn pycheck_types(
    alloc: Global,
    bytes: &[u8],
    json: bool,
    room: &mut [u8],
) -> CheckAnswer
    ensures listed { result.kind ≡ 0 → IsListed bytes.now json room.old room.new result }
    ensures refused { result.kind ≡ 1 → IsRefused bytes.now result }
    ensures kinds { result.kind ≤ 2 }
    ensures untouched { ¬ (result.kind ≡ 0) → room.new ≡ room.old }
{
    match listed(alloc, bytes, json, room) {
        Ok(answer) => answer,
        Err(CheckFault::Refused(refusal)) => refusal_answer(refusal),
        // Writing into a list of bytes fails only if an allocation fails.
        Err(CheckFault::OutOfMemory | CheckFault::Read | CheckFault::Write) => of_kind(2),
    }
}
