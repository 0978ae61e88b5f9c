// Equations, one after the other, up to the keyword `out`. Their gates and their names are kept as they are read.
ghost use Rattle.std.specs.Prelude.{◌≡◌, [], ◌∷◌, ◌+◌, ◌*◌, ◌≤◌, ◌<◌, length};
ghost use Rattle.std.proofs.lemmas.List.Edits.{sets};
ghost use Rattle.grammar.specs.paper.Text.{most_text};
ghost use Rattle.scanning.specs.Equations.{RightAsked, RightRead, EndAsked, EndRead, TurnAsked, TurnRead, EquationsAsked, EquationsRead};

use crate::expressions::{Piece, read_expression};
use crate::gates::put_gate;
use crate::lefts::{Left, read_left};
use crate::names::SEMICOLON;
use spelling::{Stopped, byte_at, skip_blanks};

// The function table of a gate that passes its value on.
const PASS: u16 = 2;

// Where the next line begins, and how many gates there are now.
#[derive(Clone, Copy)]
pub struct Moved {
    pub next: usize,
    pub made: usize,
}

// An equation was read; or `out`, with the place behind it.
#[derive(Clone, Copy)]
pub enum Turn {
    Equation(Moved),
    Out(usize),
}

// Where `out` ends, and how many gates and names there are.
#[derive(Clone, Copy)]
pub struct Stage {
    pub next: usize,
    pub made: usize,
    pub listed: usize,
}

// `;` behind an expression, of which `made` gates were there before. One with no operator gets its gate.
fn end_equation(text: &[u8], piece: Piece, gates: &mut [u16], made: usize) -> Result<Moved, Stopped>
    requires { EndAsked text.now piece gates.old made }
    ensures { EndRead text.now piece made gates.old gates.new result }
{
    let stop = piece.next;
    if byte_at(text, stop) != SEMICOLON {
        return Err(Stopped { place: stop });
    }
    let next = skip_blanks(text, stop + 1);
    if piece.made == made {
        let passed = put_gate(gates, PASS, piece.operand, piece);
        return Ok(Moved {
            next,
            made: passed.made,
        });
    }
    Ok(Moved {
        next,
        made: piece.made,
    })
}

// An expression and the `;` behind it.
fn read_right(text: &[u8], at: usize, gates: &mut [u16], made: usize) -> Result<Moved, Stopped>
    requires { RightAsked text.now at gates.old made }
    ensures { RightRead text.now at made gates.old gates.new result }
{
    let piece = read_expression(text, at, gates, made)?;
    end_equation(text, piece, gates, made)
}

// Keeps the name on an equation's left, and the node of its last gate.
fn keep_equation(names: &mut [u16], listed: usize, place: usize, node: usize)
    requires listed_in_bounds { 2 * listed + 1 < length names.old }
    requires place_lt_most_text { (place < most_text) × (node < 3 * most_text) }
    ensures { names.new ≡ sets names.old (2 * listed) (place ∷ node ∷ []) }
{
    names[2 * listed] = place as u16;
    names[2 * listed + 1] = node as u16;
}

// One equation, whose gates stand behind the first `made`; the line of inputs had `inputs` names.
fn read_equation(
    text: &[u8],
    at: usize,
    gates: &mut [u16],
    made: usize,
    names: &mut [u16],
    listed: usize,
    inputs: usize,
) -> Result<Turn, Stopped>
    requires { TurnAsked text.now at gates.old made names.old listed inputs }
    ensures { TurnRead text.now at gates.old made names.old listed inputs gates.new names.new result }
{
    match read_left(text, at)? {
        Left::Out(place) => Ok(Turn::Out(place)),
        Left::Equation(start) => {
            let moved = read_right(text, start, gates, made)?;
            keep_equation(names, listed, at, inputs + moved.made - 1);
            Ok(Turn::Equation(moved))
        }
    }
}

// All equations, up to `out`.
pub fn read_equations(
    text: &[u8],
    at: usize,
    gates: &mut [u16],
    names: &mut [u16],
    inputs: usize,
) -> Result<Stage, Stopped>
    requires { EquationsAsked text.now at gates.old names.old inputs }
    ensures { EquationsRead text.now at gates.old names.old inputs gates.new names.new result }
{
    let mut next = at;
    let mut made = 0;
    let mut listed = inputs;
    // an equation a turn, until `out` is met
    loop {
        match read_equation(text, next, gates, made, names, listed, inputs)? {
            Turn::Equation(moved) => {
                next = moved.next;
                made = moved.made;
                listed += 1;
            }
            Turn::Out(place) => {
                return Ok(Stage {
                    next: place,
                    made,
                    listed,
                });
            }
        }
    }
}
