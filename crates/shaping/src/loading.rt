// The arrays that a sheet of sound shape is loaded into, filled node by node.
ghost use Rattle.std.specs.Prelude.{◌≡◌, ◌+◌, ◌-◌};
ghost use Rattle.sheet.specs.paper.Shape.{end_at, reading};
ghost use Rattle.shaping.specs.Terms.{due_of};
ghost use Rattle.shaping.specs.Loading.{start_of, line_arrays, LineRoom, lut_arrays, LutRoom, LutsFilled, Loadable};
ghost use Rattle.shaping.specs.Turns.{LinesLoaded, next_root, NextReady};

use crate::fields::field_end;
use crate::numbers::node_at;
use crate::storing::{put_line, put_lut, put_no_line, put_no_lut};
use crate::terms::Terms;
use drawing::bytes::small_at;
use drawing::limits::FRAME;
use sheet::limits::DEPTH_AT;
use storage::Node;

// The entries of all nodes' lines: the inputs have none. Answers where the lines end.
pub fn load_lines(
    terms: Terms,
    sheet: &[u8],
    labels: &mut [u16],
    cuts: &mut [u16],
    places: &mut [u32],
) -> usize
    requires loadable { Loadable (due_of terms) sheet.now }
    requires line_room { LineRoom terms.numbers.nodes (line_arrays labels.old cuts.old places.old) }
    ensures { LinesLoaded (due_of terms) sheet.now (line_arrays labels.old cuts.old places.old) result (line_arrays labels.new cuts.new places.new) }
{
    let mut at = field_end(sheet, 0);
    for v in 0..terms.numbers.nodes {
        let node = Node { id: v as u16 };
        if v < terms.numbers.inputs {
            put_no_line(terms, sheet, node, labels, cuts, places);
        } else {
            put_line(terms, sheet, at, node, labels, cuts, places);
            at = field_end(sheet, at);
        }
    }
    at
}

// Where the next LUT stands, and how many are left.
#[derive(Clone, Copy)]
pub struct Turn {
    pub at: usize,
    pub left: usize,
}

// The root of the next LUT, or n where none is left.
fn next_root(terms: Terms, sheet: &[u8], turn: Turn) -> Node
    requires { NextReady (due_of terms) sheet.now turn.at turn.left }
    ensures { result.id ≡ next_root (due_of terms) sheet.now turn.at turn.left }
{
    let at = turn.at;
    if turn.left == 0 {
        return Node {
            id: terms.numbers.nodes as u16,
        };
    }
    node_at(terms, sheet, at + FRAME)
}

// The entries of all nodes' LUTs, which start at `start`: those of the next LUT if the node is its root.
// Roots rise, so no LUT is passed over.
pub fn load_luts(
    terms: Terms,
    sheet: &[u8],
    start: usize,
    luts: &mut [u8],
    cuts: &mut [u16],
    tables: &mut [u64],
)
    requires loadable { Loadable (due_of terms) sheet.now }
    requires start_value { start ≡ start_of sheet.now (end_at sheet.now 0) (terms.numbers.nodes - terms.numbers.inputs) }
    requires lut_room { LutRoom terms.numbers.nodes (lut_arrays luts.old cuts.old tables.old) }
    ensures { LutsFilled (reading (due_of terms) sheet.now).sheet.luts (lut_arrays luts.old cuts.old tables.old) terms.numbers.nodes (lut_arrays luts.new cuts.new tables.new) }
{
    let width = terms.form.width;
    let mut turn = Turn {
        at: start,
        left: small_at(sheet, DEPTH_AT + width, width),
    };
    for v in 0..terms.numbers.nodes {
        let node = Node { id: v as u16 };
        if next_root(terms, sheet, turn).id != node.id {
            put_no_lut(terms, sheet, node, luts, cuts, tables);
        } else {
            put_lut(terms, sheet, turn.at, node, luts, cuts, tables);
            turn = Turn {
                at: field_end(sheet, turn.at),
                left: turn.left - 1,
            };
        }
    }
}
