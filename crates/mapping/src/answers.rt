// The paper's number and the place of the mapper's reply, as words. Two numbers of one value, each by its definition: no `From`.
ghost use Rattle.std.specs.Prelude.{◌≡◌};
ghost use Rattle.mapping.specs.paper.Maps.{number, place};

use crate::MapError;
use drawing::refusals::{number_of, place_of};
use sheet::limits::SHEET_ROOM;
use taking::{LOOP, ROOM};

pub fn number_of_reply(reply: Result<usize, MapError>) -> u64
    ensures { result ≡ number reply }
{
    match reply {
        Ok(_) => 0,
        Err(MapError::Refused(r)) => number_of(r),
        Err(MapError::LoopAt(_)) => LOOP,
        Err(MapError::Room) => ROOM,
    }
}

// The sheet's length where there is one.
pub fn place_of_reply(reply: Result<usize, MapError>) -> u64
    ensures { result ≡ place reply }
{
    match reply {
        Ok(length) => length as u64,
        Err(MapError::Refused(r)) => place_of(r),
        Err(MapError::LoopAt(gate)) => gate.id as u64,
        Err(MapError::Room) => SHEET_ROOM as u64,
    }
}
