// What the program that reads equations writes, from bytes to lent buffers.
#![tactic(auto)]

ghost use Rattle.std.specs.Prelude.{◌≡◌};
ghost use Rattle.wording.specs.paper.Filled.{Front};
ghost use Rattle.telling.specs.paper.Tells.{Tells};
ghost use Rattle.telling.specs.paper.Argument.{digit_of};

use compiling::answers::{number_of_reply, place_of_reply};
use compiling::compile;
use listing::{TEXT_ROOM, list};
use wording::write_refused;

// How many bytes the program has to write: of the table's buffer to a file, of the lines' to standard output.
#[derive(Clone, Copy)]
pub struct Lengths {
    pub table: usize,
    pub lines: usize,
}

// K from the program's first argument.
pub fn digit(word: &[u8]) -> u64
    ensures { result ≡ digit_of word.now }
{
    match word {
        [byte @ b'0'..=b'9'] => u64::from(*byte - b'0'),
        _ => 0,
    }
}

// The gate table of a text of equations at the front of the table buffer, and its listing at the front of the other; or there the line of refusal.
// A buffer for lines without room for the longest listing leaves both as they were, and the answer is 0 for both.
pub fn tell(text: &[u8], k: u64, table: &mut [u8], lines: &mut [u8]) -> Lengths
    ensures tells { Tells text.now k table.old lines.old result table.new lines.new }
    ensures front { Front result.table table.new }
    ensures front_2 { Front result.lines lines.new }
{
    if lines.len() < TEXT_ROOM {
        return Lengths { table: 0, lines: 0 };
    }
    let reply = compile(text, k, table);
    match reply {
        Ok(length) => {
            let listed = list(&table[..length], lines);
            Lengths {
                table: length,
                lines: listed,
            }
        }
        Err(_) => {
            let number = number_of_reply(reply);
            let place = place_of_reply(reply);
            let line = write_refused(number, place, lines);
            Lengths {
                table: 0,
                lines: line,
            }
        }
    }
}
