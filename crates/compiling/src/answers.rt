// Number and place of a reply, as words. Two numbers of one value, each by its definition: no `From`.
ghost use Rattle.std.specs.Prelude.{◌≡◌};
ghost use Rattle.compiling.specs.paper.Compiles.{number, place};

use crate::{CompileError, TABLE_ROOM};
use taking::{LOOP, ROOM};

// "41 text too long ..; 42 name used but nowhere defined ..; 43 K, inputs, nodes or outputs outside 01's numbers"
const TEXT: u64 = 41;

const NAME: u64 = 42;

const NUMBERS: u64 = 43;

pub fn number_of_reply(reply: Result<usize, CompileError>) -> u64
    ensures { result ≡ number reply }
{
    match reply {
        Ok(_) => 0,
        Err(CompileError::Text(_)) => TEXT,
        Err(CompileError::Name(_)) => NAME,
        Err(CompileError::Numbers) => NUMBERS,
        Err(CompileError::LoopAt(_)) => LOOP,
        Err(CompileError::Room) => ROOM,
    }
}

// The table's length where there is one.
pub fn place_of_reply(reply: Result<usize, CompileError>) -> u64
    ensures { result ≡ place reply }
{
    match reply {
        Ok(length) => length as u64,
        Err(CompileError::Text(at)) => at as u64,
        Err(CompileError::Name(at)) => at as u64,
        Err(CompileError::Numbers) => 0,
        Err(CompileError::LoopAt(gate)) => gate.id as u64,
        Err(CompileError::Room) => TABLE_ROOM as u64,
    }
}
