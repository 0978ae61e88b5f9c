// Wrong names, and the least place of one.
ghost use Rattle.std.specs.Prelude.{◌≡◌, ◌+◌, ◌*◌, ◌<◌, ◌≤◌, length};
ghost use Rattle.grammar.specs.paper.Text.{word_at};
ghost use Rattle.storage.specs.Marks.{Tells};
ghost use Rattle.naming.specs.Wrongs.{LeastOf, earlier_of, OneBelow, Among, AgainAt, UndefinedAt, UndefinedOperand, UndefinedInGate, UndefinedOutput};

use crate::Equations;
use crate::arrays::{left_at, place_at, right_at};
use crate::words::{end_of_word, is_word_at};
use spelling::MOST_TEXT;

// The lesser of two places, where there are such.
pub fn earlier(a: Option<usize>, b: Option<usize>) -> Option<usize>
    ensures { result ≡ earlier_of a b }
{
    match (a, b) {
        (Some(p), Some(q)) => Some(p.min(q)),
        _ => a.or(b),
    }
}

// Does one of the first names have the word at `place`?
fn is_among(equations: Equations, many: usize, place: usize) -> bool
    requires { 2 * many ≤ length equations.names.now }
    ensures { Tells (Among equations.entry.text.now equations.entry.names.now many (word_at equations.entry.text.now place)) result }
{
    let end = end_of_word(equations.text, place);
    for i in 0..many {
        if is_word_at(equations.text, place, end, place_at(equations.names, i)) {
            return true;
        }
    }
    false
}

// The place of the i-th name, if one before it has its word.
fn again_at(equations: Equations, i: usize) -> Option<usize>
    requires { 2 * (i + 1) ≤ length equations.names.now }
    ensures { LeastOf (AgainAt equations.entry.text.now equations.entry.names.now i) result }
{
    let place = place_at(equations.names, i);
    is_among(equations, i, place).then_some(place)
}

// This place, if no definition has its word.
fn undefined_at(equations: Equations, place: usize) -> Option<usize>
    ensures { LeastOf (UndefinedAt equations.entry.text.now equations.entry.names.now equations.entry.counts.definitions place) result }
{
    (!is_among(equations, equations.counts.definitions, place)).then_some(place)
}

// A gate's number is no name.
fn undefined_operand(equations: Equations, operand: usize) -> Option<usize>
    ensures { LeastOf (UndefinedOperand equations.entry.text.now equations.entry.names.now equations.entry.counts.definitions operand) result }
{
    if operand < MOST_TEXT {
        return undefined_at(equations, operand);
    }
    None
}

fn undefined_in_gate(equations: Equations, gate: usize) -> Option<usize>
    requires { 3 * (gate + 1) ≤ length equations.gates.now }
    ensures { LeastOf (UndefinedInGate equations.entry.text.now equations.entry.names.now equations.entry.counts.definitions
        equations.entry.gates.now gate) result }
{
    let left = left_at(equations.gates, gate);
    let right = right_at(equations.gates, gate);
    let first = undefined_operand(equations, left);
    if left == right {
        return first;
    }
    earlier(first, undefined_operand(equations, right))
}

// The least place of a name that is defined again.
pub fn first_again(equations: Equations) -> Option<usize>
    ensures { LeastOf (OneBelow equations.entry.counts.definitions (AgainAt equations.entry.text.now equations.entry.names.now)) result }
{
    let mut best = None;
    for i in 0..equations.counts.definitions {
        best = earlier(best, again_at(equations, i));
    }
    best
}

// The least place of a name in an expression that nothing defines.
pub fn first_undefined_operand(equations: Equations) -> Option<usize>
    requires { 3 * equations.counts.gates ≤ length equations.gates.now }
    ensures { LeastOf (OneBelow equations.entry.counts.gates
        (UndefinedInGate equations.entry.text.now equations.entry.names.now equations.entry.counts.definitions equations.entry.gates.now)) result }
{
    let mut best = None;
    for gate in 0..equations.counts.gates {
        best = earlier(best, undefined_in_gate(equations, gate));
    }
    best
}

// The least place of an output's name that nothing defines.
pub fn first_undefined_output(equations: Equations) -> Option<usize>
    requires { 2 * (equations.counts.definitions + equations.counts.outputs) ≤ length equations.names.now }
    ensures { LeastOf (OneBelow equations.entry.counts.outputs
        (UndefinedOutput equations.entry.text.now equations.entry.names.now equations.entry.counts.definitions)) result }
{
    let mut best = None;
    for i in 0..equations.counts.outputs {
        let place = place_at(equations.names, equations.counts.definitions + i);
        best = earlier(best, undefined_at(equations, place));
    }
    best
}
