// The mapper: a gate table's bytes in, the mapping sheet's bytes out.
#![tactic(auto)]

pub mod answers;
mod lines;
mod luts;
mod paths;
mod sheets;
mod writing;

ghost use Rattle.std.specs.Prelude.{◌≡◌};
ghost use Rattle.settling.specs.Arrays.{TakenAsked};
ghost use Rattle.mapping.specs.Sheets.{TakenMapped, error_of};
ghost use Rattle.mapping.specs.paper.Maps.{Maps};

use crate::sheets::map_drawing;
use drawing::Refusal;
use drawing::limits::{MOST_NODES, MOST_OUTPUTS, MOST_PLACES};
use settling::{MOST_LINKS, MOST_WORDS};
use sheet::limits::SHEET_ROOM;
use storage::{Net, Node};
use taking::{TakeError, take_table};

// Why a table is not mapped: it is refused; or it has a loop, and this is the lowest gate on one; or the sheet buffer is too short.
#[derive(Clone, Copy)]
pub enum MapError {
    Refused(Refusal),
    LoopAt(Node),
    Room,
}

impl From<TakeError> for MapError {
    ghost from_gives = { λ take map. map ≡ error_of take };

    fn from(e: TakeError) -> MapError {
        match e {
            TakeError::Refused(r) => MapError::Refused(r),
            TakeError::LoopAt(gate) => MapError::LoopAt(gate),
            // never given: the arrays have the lengths that `take_table` asks
            TakeError::TooShort => MapError::Room,
        }
    }
}

// Maps a table that was taken: Room comes last of the refusals.
fn map_taken(net: Net, rows: &[u64], outputs: &[u16], sheet: &mut [u8]) -> Result<usize, MapError>
    requires { TakenAsked net.numbers net.fanins.now rows.now net.order.now outputs.now }
    ensures { TakenMapped net.entry.numbers net.entry.fanins.now rows.now outputs.now sheet.old result sheet.new }
{
    if sheet.len() < SHEET_ROOM {
        return Err(MapError::Room);
    }
    let mut labels = [0u16; MOST_NODES];
    let mut cuts = [0u16; MOST_PLACES];
    let mut roles = [0u8; MOST_NODES];
    let mut links = [0u16; MOST_LINKS];
    let mut luts = [0u8; MOST_NODES];
    let mut words = [0u64; MOST_WORDS];
    let length = map_drawing(
        net,
        rows,
        outputs,
        &mut labels,
        &mut cuts,
        &mut roles,
        &mut links,
        &mut luts,
        &mut words,
        sheet,
    );
    Ok(length)
}

// Maps a gate table into the sheet buffer, and answers the sheet's length. Refusals come in the paper's order, and each leaves the buffer as it was.
pub fn map(table: &[u8], sheet: &mut [u8]) -> Result<usize, MapError>
    ensures { Maps table.now sheet.old result sheet.new }
{
    let mut fanins = [0u16; MOST_PLACES];
    let mut rows = [0u64; MOST_NODES];
    let mut outputs = [0u16; MOST_OUTPUTS];
    let mut order = [0u16; MOST_NODES];
    let mut marks = [0u8; MOST_NODES];
    let numbers = take_table(
        table,
        &mut fanins,
        &mut rows,
        &mut outputs,
        &mut order,
        &mut marks,
    )?;
    let net = Net {
        numbers,
        fanins: &fanins,
        order: &order,
    };
    map_taken(net, &rows, &outputs, sheet)
}
