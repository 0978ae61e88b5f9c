// Takes a gate table: reads it into lent arrays and orders its gates. Refusals 1 to 7 of the paper.
#![tactic(auto)]

ghost use Rattle.std.specs.Prelude.{◌≡◌};
ghost use Rattle.drawing.specs.Reading.{arrays_of};
ghost use Rattle.taking.specs.Taking.{error_of, Takes};

use drawing::limits::MOST_NODES;
use drawing::{ReadError, Refusal};
use storage::{Node, Numbers};

// Why a table is not taken: it is refused; or it has a loop, and this is the lowest gate on one.
// TooShort: a lent array is shorter than the largest table needs.
#[derive(Clone, Copy)]
pub enum TakeError {
    Refused(Refusal),
    LoopAt(Node),
    TooShort,
}

impl From<ReadError> for TakeError {
    ghost from_gives = { λ read take. take ≡ error_of read };

    fn from(e: ReadError) -> TakeError {
        match e {
            ReadError::Refused(r) => TakeError::Refused(r),
            ReadError::TooShort => TakeError::TooShort,
        }
    }
}

// The paper's numbers of LoopAt and of a buffer that is too short, whoever answers them.
pub const LOOP: u64 = 7;

pub const ROOM: u64 = 8;

// A taken table's numbers. Loop follows a whole reading. `order` and `marks` have a place for each node of the largest table; the marks are scratch, and left 0.
pub fn take_table(
    table: &[u8],
    fanins: &mut [u16],
    rows: &mut [u64],
    outputs: &mut [u16],
    order: &mut [u16],
    marks: &mut [u8],
) -> Result<Numbers, TakeError>
    ensures { Takes (arrays_of fanins.old rows.old outputs.old)
        order.old marks.old table.now result
        (arrays_of fanins.new rows.new outputs.new) order.new marks.new }
{
    if order.len() < MOST_NODES || marks.len() < MOST_NODES {
        return Err(TakeError::TooShort);
    }
    let numbers = drawing::read(table, fanins, rows, outputs)?;
    walking::order_gates(numbers, fanins, order, marks).map_err(TakeError::LoopAt)?;
    Ok(numbers)
}
