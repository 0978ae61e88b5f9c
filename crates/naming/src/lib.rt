// The names of a text that was read, from the arrays that its reader left: the earliest place where one is wrong, and the node of each.
// `gates` has three places a gate: its function table and two operands; `names` two a name: its place and its node, definitions first, then outputs.
#![tactic(auto)]

pub mod arrays;
mod checks;
pub mod nodes;
mod words;

ghost use Rattle.std.specs.Prelude.{◌+◌, ◌*◌, ◌≤◌, length};
ghost use Rattle.grammar.specs.paper.Grammar.{System};
ghost use Rattle.naming.specs.Stored.{Stored, Held};
ghost use Rattle.naming.specs.Wrongs.{Named};

use crate::checks::{earlier, first_again, first_undefined_operand, first_undefined_output};
use scanning::Counts;

// A text that was read, the arrays that its reader left, and how much of each: all definitions are in `names`.
#[derive(Clone, Copy)]
pub struct Equations<'a> {
    pub text: &'a [u8],
    pub gates: &'a [u16],
    pub names: &'a [u16],
    pub counts: Counts,
    pub ghost definitions_in_bounds: { 2 * counts.definitions ≤ length names.now },
}

// "name used but nowhere defined, or defined again": the earliest such place, if there is one.
// Each definition is compared with those before it, and each use with all: fewer than definitions² / 2 + uses × definitions words. A gate of one operand has
// it twice, and it is looked up once.
pub fn first_misnamed(equations: Equations) -> Option<usize>
    requires made_in_bounds { 3 * equations.counts.gates ≤ length equations.gates.now }
    requires outputs_in_bounds { 2 * (equations.counts.definitions + equations.counts.outputs) ≤ length equations.names.now }
    requires held { Held equations.text.now equations.counts.gates equations.counts.definitions equations.counts.outputs
        equations.gates.now equations.names.now }
    ensures { (sys : System) →
        Stored equations.entry.text.now sys equations.entry.counts.gates equations.entry.counts.definitions equations.entry.counts.outputs
        equations.entry.gates.now equations.entry.names.now →
        Named equations.entry.text.now sys result }
{
    let again = first_again(equations);
    let operand = first_undefined_operand(equations);
    let output = first_undefined_output(equations);
    earlier(again, earlier(operand, output))
}
