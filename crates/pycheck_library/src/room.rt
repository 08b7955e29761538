//! The room that a caller lends for a report.

ghost use Rattle.pycheck_library.specs.Room.{IsPut};

/// Puts bytes at the head of a room where they fit; where they do not, the room stays as it is.
pub(crate) fn copy_into(room: &mut [u8], bytes: &[u8])
    ensures { IsPut bytes.now room.old room.new }
{
    if bytes.len() <= room.len() {
        let (head, _) = room.split_at_mut(bytes.len());
        head.copy_from_slice(bytes);
    }
}
