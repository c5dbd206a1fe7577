//! How much room there is.
ghost use Rattle.std.specs.Prelude.{◌≡◌};
ghost use Rattle.ctf_open.specs.Quotas.{fits_in};

/// The bytes of all else, and the most that all may have together.
#[derive(Clone, Copy, Debug, PartialEq, Eq)]
pub struct Room {
    pub others: u128,
    pub most: u128,
}

/// Whether there is room for so many bytes; there always is without a limit.
pub(crate) fn has_room(room: Option<Room>, bytes: u128) -> bool
    ensures { result ≡ fits_in room bytes }
{
    match room {
        Some(room) => bytes <= room.most && room.others <= room.most - bytes,
        None => true,
    }
}
