// Expressions: their gates are stored as they are read. Three readers call each other, as the grammar's notions do; only a bracket goes deeper, so
// that no text costs more than 99 calls.
ghost use Rattle.scanning.specs.Reading.{Asked, FactorAnswer, TermAnswer, ExpressionAnswer};
ghost use Rattle.scanning.specs.Promise.{Begins, Reads};

pub use crate::gates::AND;
use crate::gates::{OR, clear_from, put_gate};
use crate::operands::{close_bracket, name_operand, skip_bangs};
use spelling::{Stopped, byte_at, skip_blanks};

const STAR: u8 = 42;

const PLUS: u8 = 43;

const OPENING: u8 = 40;

// "to a nesting of 32"
const MOST_BRACKETS: usize = 32;

// What was read: the place behind it, the operand that it is, and how many gates there are now. An operand is the place of a name, or 8,192 and the
// number of a gate.
#[derive(Clone, Copy)]
pub struct Piece {
    pub next: usize,
    pub operand: u16,
    pub made: usize,
}

// No plainer as one with `term`: that would take a sign, a gate and a reader of operands for each, and call 165 deep.
#[cycle(expression_factor_term)]
fn expression(
    text: &[u8],
    at: usize,
    nesting: usize,
    gates: &mut [u16],
    made: usize,
) -> Result<Piece, Stopped>
    requires { Asked text.now nesting at gates.old made }
    ensures { ExpressionAnswer text.now nesting at gates.old made gates.new result }
{
    let mut left = term(text, at, nesting, gates, made)?;
    // as long as the sign stands: how often is known only at the end
    while byte_at(text, left.next) == PLUS {
        let start = skip_blanks(text, left.next + 1);
        let right = term(text, start, nesting, gates, left.made)?;
        left = put_gate(gates, OR, left.operand, right);
    }
    Ok(left)
}

#[cycle(expression_factor_term)]
fn term(
    text: &[u8],
    at: usize,
    nesting: usize,
    gates: &mut [u16],
    made: usize,
) -> Result<Piece, Stopped>
    requires { Asked text.now nesting at gates.old made }
    ensures { TermAnswer text.now nesting at gates.old made gates.new result }
{
    let mut left = factor(text, at, nesting, gates, made)?;
    // as long as the sign stands: how often is known only at the end
    while byte_at(text, left.next) == STAR {
        let start = skip_blanks(text, left.next + 1);
        let right = factor(text, start, nesting, gates, left.made)?;
        left = put_gate(gates, AND, left.operand, right);
    }
    Ok(left)
}

#[cycle(expression_factor_term)]
fn factor(
    text: &[u8],
    at: usize,
    nesting: usize,
    gates: &mut [u16],
    made: usize,
) -> Result<Piece, Stopped>
    requires { Asked text.now nesting at gates.old made }
    ensures { FactorAnswer text.now nesting at gates.old made gates.new result }
{
    let bangs = skip_bangs(text, at);
    let start = bangs.next;
    let count = bangs.count;
    if byte_at(text, start) != OPENING {
        return name_operand(text, start, count, gates, made);
    }
    if nesting == 0 {
        return Err(Stopped { place: start });
    }
    let inside = skip_blanks(text, start + 1);
    let inner = expression(text, inside, nesting - 1, gates, made)?;
    close_bracket(text, inner, count, gates)
}

// Where the expression stops, the gates are left as they were.
pub fn read_expression(
    text: &[u8],
    at: usize,
    gates: &mut [u16],
    made: usize,
) -> Result<Piece, Stopped>
    requires { Begins text.now at gates.old made }
    ensures { Reads text.now at gates.old made gates.new result }
{
    let whole = expression(text, at, MOST_BRACKETS, gates, made);
    if whole.is_err() {
        clear_from(gates, made);
    }
    whole
}
