// The parts of an operand that nothing nests in: the signs `!` before it, a name, and the bracket that ends it.
ghost use Rattle.std.specs.Prelude.{◌≡◌, false, ◌+◌, ◌*◌, ◌≤◌, length};
ghost use Rattle.grammar.specs.paper.Text.{byte_at, is_blank, most_text};
ghost use Rattle.scanning.specs.Reading.{Banged, Closed, NameRead};

use crate::expressions::Piece;
use crate::gates::negate;
use spelling::{Stopped, byte_at, read_name, skip_blanks};

const BANG: u8 = 33;

const CLOSING: u8 = 41;

// How many signs `!`, and the place behind them.
#[derive(Clone, Copy)]
pub struct Bangs {
    pub next: usize,
    pub count: usize,
}

pub fn skip_bangs(text: &[u8], at: usize) -> Bangs
    requires { (at ≤ length text.now) × (is_blank (byte_at text.now at) ≡ false) }
    ensures { Banged text.now at result }
{
    let mut next = at;
    let mut count = 0;
    // as long as signs stand, with the blanks between them
    while byte_at(text, next) == BANG {
        next = skip_blanks(text, next + 1);
        count += 1;
    }
    Bangs { next, count }
}

// The bracket that ends what was read, behind `count` signs `!`.
pub fn close_bracket(
    text: &[u8],
    piece: Piece,
    count: usize,
    gates: &mut [u16],
) -> Result<Piece, Stopped>
    requires { (piece.made + count ≤ most_text) × (3 * most_text ≤ length gates.old) }
    ensures { Closed text.now count piece gates.old gates.new result }
{
    if byte_at(text, piece.next) != CLOSING {
        return Err(Stopped { place: piece.next });
    }
    let next = skip_blanks(text, piece.next + 1);
    Ok(negate(gates, Piece { next, ..piece }, count))
}

// A name that is an operand, behind `count` signs `!`.
pub fn name_operand(
    text: &[u8],
    at: usize,
    count: usize,
    gates: &mut [u16],
    made: usize,
) -> Result<Piece, Stopped>
    requires text_len_bound { length text.now ≤ most_text }
    requires count_bound { (made + count ≤ most_text) × (3 * most_text ≤ length gates.old) }
    ensures { NameRead text.now at count gates.old made gates.new result }
{
    let end = read_name(text, at)?;
    let piece = Piece {
        next: skip_blanks(text, end),
        operand: at as u16,
        made,
    };
    Ok(negate(gates, piece, count))
}
