// The lines of a listing, and those of LUTs and outputs that arrays hold.
ghost use Rattle.std.specs.Prelude.{◌≡◌, ℕ, ◌+◌, ◌≤◌, ◌<◌, length, get_or};
ghost use Rattle.wording.specs.paper.Text.{each, head_line, leaf_text, lut_line, output_line};
ghost use Rattle.wording.specs.Puts.{Room, Put};
ghost use Rattle.wording.specs.Arrays.{marked, marked_from, output_text};
ghost use Rattle.wording.specs.Luts.{HeldAt, line_at};

use crate::words::Pen;
use storage::lists::{PLACES, size_at};
use storage::marks::label_of;
use storage::{CutSize, Label, Node};

pub fn put_head(k: CutSize, inputs: usize, gates: usize, luts: usize, depth: Label, pen: &mut Pen)
    requires { Room pen.old (head_line k.leaves inputs gates luts depth.depth) }
    ensures { Put pen.old (head_line k.leaves inputs gates luts depth.depth) pen.new }
{
    pen.named(b"K ", k.leaves as u64);
    pen.named(b" inputs ", inputs as u64);
    pen.named(b" gates ", gates as u64);
    pen.named(b" luts ", luts as u64);
    pen.named(b" depth ", depth.depth as u64);
    pen.end_line();
}

fn put_leaves(leaves: &[u16], pen: &mut Pen)
    requires { Room pen.old (each leaf_text leaves.now) }
    ensures { Put pen.old (each leaf_text leaves.now) pen.new }
{
    for &id in leaves {
        pen.named(b" ", id as u64);
    }
}

// One LUT's line, with the leaves of its cut.
fn put_lut_line(root: Node, depth: Label, leaves: &[u16], table: u64, pen: &mut Pen)
    requires { Room pen.old (lut_line (record { root = root.id; depth = depth.depth; leaves = leaves.now; table = table })) }
    ensures { Put pen.old (lut_line (record { root = root.id; depth = depth.depth; leaves = leaves.now; table = table })) pen.new }
{
    pen.named(b"lut ", root.id as u64);
    pen.named(b" depth ", depth.depth as u64);
    pen.word(b" leaves");
    put_leaves(leaves, pen);
    pen.word(b" table ");
    pen.hex16(table);
    pen.end_line();
}

fn put_output_line(node: Node, depth: Label, pen: &mut Pen)
    requires { Room pen.old (output_line (record { node = node.id; depth = depth.depth })) }
    ensures { Put pen.old (output_line (record { node = node.id; depth = depth.depth })) pen.new }
{
    pen.named(b"output ", node.id as u64);
    pen.named(b" depth ", depth.depth as u64);
    pen.end_line();
}

// What arrays hold of LUTs, each at its root's place.
#[derive(Clone, Copy)]
pub struct Luts<'a> {
    pub labels: &'a [u16],
    pub cuts: &'a [u16],
    pub tables: &'a [u64],
}

impl Luts<'_> {
    // The line of the LUT with this root.
    fn put(&self, root: Node, pen: &mut Pen)
        requires lut_held { HeldAt self.now root.id }
        requires line_in_bounds { Room pen.old (line_at self.now root.id) }
        ensures { Put pen.old (line_at self.now root.id) pen.new }
    {
        let v = root.id as usize;
        let first = PLACES * v + 1;
        let end = first + size_at(self.cuts, root);
        let depth = label_of(self.labels, root);
        put_lut_line(root, depth, &self.cuts[first..end], self.tables[v], pen)
    }

    // The node's line, if it is a root.
    fn put_marked(&self, node: Node, mark: u8, pen: &mut Pen)
        requires lut_held { mark ≡ 1 → HeldAt self.now node.id }
        requires mark_in_bounds { Room pen.old (each (line_at self.now) (marked node.id mark)) }
        ensures { Put pen.old (each (line_at self.now) (marked node.id mark)) pen.new }
    {
        if mark == 1 {
            self.put(node, pen);
        }
    }

    // "LUT lines run by root": the nodes are looked at once, as their ids rise.
    pub fn put_all(&self, marks: &[u8], pen: &mut Pen)
        requires marks_bound { length marks.now ≤ 32767 }
        requires by_index { (v : ℕ) → v < length marks.now → get_or marks.now v 0 ≡ 1 → HeldAt self.now v }
        requires luts_in_bounds { Room pen.old (each (line_at self.now) (marked_from 0 marks.now)) }
        ensures { Put pen.old (each (line_at self.now) (marked_from 0 marks.now)) pen.new }
    {
        for (v, &mark) in marks.iter().enumerate() {
            self.put_marked(Node { id: v as u16 }, mark, pen);
        }
    }
}

fn put_output(node: Node, labels: &[u16], pen: &mut Pen)
    requires id_in_bounds { node.id < length labels.now }
    requires id_in_bounds_2 { Room pen.old (output_text labels.now node.id) }
    ensures { Put pen.old (output_text labels.now node.id) pen.new }
{
    let depth = label_of(labels, node);
    put_output_line(node, depth, pen)
}

// "output lines in file order"
pub fn put_outputs(labels: &[u16], outputs: &[u16], pen: &mut Pen)
    requires by_index { (i : ℕ) → i < length outputs.now → get_or outputs.now i 0 < length labels.now }
    requires outputs_in_bounds { Room pen.old (each (output_text labels.now) outputs.now) }
    ensures { Put pen.old (each (output_text labels.now) outputs.now) pen.new }
{
    for &id in outputs {
        put_output(Node { id }, labels, pen);
    }
}
