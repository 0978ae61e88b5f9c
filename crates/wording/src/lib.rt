// The text that the programs print, made in a buffer that the caller lends.
#![tactic(auto)]

mod lines;
mod words;

ghost use Rattle.std.specs.Prelude.{◌≡◌, ◌≤◌, length};
ghost use Rattle.wording.specs.paper.Text.{listing_of, refused_line, accepted_line};
ghost use Rattle.wording.specs.paper.Puts.{Wrote};
ghost use Rattle.wording.specs.paper.Rooms.{room, line_room};
ghost use Rattle.wording.specs.Arrays.{arrays_of, mapping_in, luts_in, Held, accepted_room};

use crate::lines::{Luts, put_head, put_outputs};
use crate::words::Pen;
use storage::{Label, Numbers};

// The lister's text of the mapping that the arrays hold: a LUT for each node with the mark 1, `many` of them, and the outputs in file order.
pub fn list_mapping(
    numbers: Numbers,
    labels: &[u16],
    cuts: &[u16],
    luts: &[u8],
    tables: &[u64],
    outputs: &[u16],
    many: usize,
    depth: Label,
    text: &mut [u8],
) -> usize
    requires held { Held numbers.inputs numbers.nodes (arrays_of labels.now cuts.now luts.now tables.now outputs.now) numbers.roots }
    requires many_value { many ≡ length (luts_in (arrays_of labels.now cuts.now luts.now tables.now outputs.now) numbers.nodes) }
    requires roots_in_bounds { room numbers.nodes numbers.roots ≤ length text.old }
    ensures { Wrote text.old (listing_of (mapping_in numbers.k.leaves numbers.inputs numbers.nodes (arrays_of labels.now cuts.now luts.now tables.now outputs.now) numbers.roots depth.depth)) result text.new }
{
    let nodes = numbers.nodes;
    let inputs = numbers.inputs;
    let mut pen = Pen { text, at: 0 };
    put_head(numbers.k, inputs, nodes - inputs, many, depth, &mut pen);
    let lines = Luts {
        labels,
        cuts,
        tables,
    };
    lines.put_all(&luts[..nodes], &mut pen);
    put_outputs(labels, &outputs[..numbers.roots], &mut pen);
    pen.at
}

// The one line of a refusal, in two numbers of up to 20 digits.
pub fn write_refused(number: u64, place: u64, text: &mut [u8]) -> usize
    requires { line_room ≤ length text.old }
    ensures { Wrote text.old (refused_line number place) result text.new }
{
    let mut pen = Pen { text, at: 0 };
    pen.named(b"refused ", number);
    pen.named(b" at ", place);
    pen.end_line();
    pen.at
}

// The inspector's one line for a sheet that it takes.
pub fn write_accepted(depth: Label, text: &mut [u8]) -> usize
    requires { accepted_room ≤ length text.old }
    ensures { Wrote text.old (accepted_line depth.depth) result text.new }
{
    let mut pen = Pen { text, at: 0 };
    pen.named(b"accepted depth ", depth.depth as u64);
    pen.end_line();
    pen.at
}
