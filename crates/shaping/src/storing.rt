// One node's entries in the arrays that a sheet is loaded into.
ghost use Rattle.std.specs.Prelude.{◌≡◌, ◌+◌, ◌*◌, ◌-◌, ◌≤◌, ◌<◌, length, get_or};
ghost use Rattle.sheet.specs.paper.Sheet.{no_line};
ghost use Rattle.drawing.specs.paper.Limits.{rows_size};
ghost use Rattle.drawing.specs.paper.Bytes.{ids_at};
ghost use Rattle.sheet.specs.paper.Shape.{leaves_end, line_at, lut_cut, lut_at};
ghost use Rattle.shaping.specs.Terms.{due_of};
ghost use Rattle.shaping.specs.Loading.{Filled, counted, line_arrays, LineRoom, LinePut, lut_arrays, LutRoom, LutPut, none_listed, lut_listed};
ghost use Rattle.shaping.specs.Turns.{LineReady};

use crate::numbers::{label_at, node_at, size_at};
use crate::terms::Terms;
use drawing::bytes::number_at;
use drawing::limits::{FRAME, ROWS_SIZE};
use sheet::limits::COUNT_SIZE;
use storage::lists::PLACES;
use storage::{CutSize, Node};

// What stands at the i-th place of a list of `size` ids that are read from `at` on: how many, then the ids, and 0 behind them.
fn list_place(terms: Terms, sheet: &[u8], at: usize, size: CutSize, i: usize) -> u16
    requires { at + size.leaves * terms.form.width ≤ length sheet.now }
    ensures { result ≡ get_or (counted (ids_at sheet.now at terms.form.width size.leaves)) i 0 }
{
    if i == 0 {
        return size.leaves as u16;
    }
    let before = i - 1;
    if size.leaves as usize <= before {
        return 0;
    }
    node_at(terms, sheet, at + before * terms.form.width).id
}

// Fills the seven places of a node by the `size` ids from `at` on.
fn put_list(terms: Terms, sheet: &[u8], at: usize, size: CutSize, cuts: &mut [u16], node: Node)
    requires width_in_bounds { at + size.leaves * terms.form.width ≤ length sheet.now }
    requires id_in_bounds { 7 * node.id + 7 ≤ length cuts.old }
    ensures { Filled cuts.old (7 * node.id) (7 * node.id + 7) (λ i. get_or (counted (ids_at sheet.now at terms.form.width size.leaves)) (i - 7 * node.id) 0) cuts.new }
{
    let base = PLACES * (node.id as usize);
    for i in 0..PLACES {
        cuts[base + i] = list_place(terms, sheet, at, size, i);
    }
}

// An input's entries: no label, no leaves.
pub fn put_no_line(
    terms: Terms,
    sheet: &[u8],
    node: Node,
    labels: &mut [u16],
    cuts: &mut [u16],
    places: &mut [u32],
)
    requires { LineRoom (node.id + 1) (line_arrays labels.old cuts.old places.old) }
    ensures { LinePut no_line 0 node.id (line_arrays labels.old cuts.old places.old) (line_arrays labels.new cuts.new places.new) }
{
    let v = node.id as usize;
    labels[v] = 0;
    places[v] = 0;
    put_list(terms, sheet, 0, CutSize { leaves: 0 }, cuts, node);
}

// A gate's entries, of its line at `at`.
pub fn put_line(
    terms: Terms,
    sheet: &[u8],
    at: usize,
    node: Node,
    labels: &mut [u16],
    cuts: &mut [u16],
    places: &mut [u32],
)
    requires line_ready { LineReady (due_of terms) sheet.now at }
    requires line_room { LineRoom (node.id + 1) (line_arrays labels.old cuts.old places.old) }
    ensures { LinePut (line_at (due_of terms) sheet.now at) at node.id (line_arrays labels.old cuts.old places.old) (line_arrays labels.new cuts.new places.new) }
{
    let v = node.id as usize;
    let width = terms.form.width;
    let cut = at + FRAME + width;
    let size = size_at(sheet, cut);
    labels[v] = label_at(terms, sheet, at + FRAME).depth;
    places[v] = at as u32;
    put_list(terms, sheet, cut + COUNT_SIZE, size, cuts, node);
}

// The entries of a node that is no root.
pub fn put_no_lut(
    terms: Terms,
    sheet: &[u8],
    node: Node,
    luts: &mut [u8],
    cuts: &mut [u16],
    tables: &mut [u64],
)
    requires { LutRoom (node.id + 1) (lut_arrays luts.old cuts.old tables.old) }
    ensures { LutPut none_listed node.id (lut_arrays luts.old cuts.old tables.old) (lut_arrays luts.new cuts.new tables.new) }
{
    let v = node.id as usize;
    luts[v] = 0;
    tables[v] = 0;
    put_list(terms, sheet, 0, CutSize { leaves: 0 }, cuts, node);
}

// A root's entries, of its LUT at `at`. What it shares with `put_line` is `put_list`; one function would need a trait for two pairs of types,
// which is no plainer.
pub fn put_lut(
    terms: Terms,
    sheet: &[u8],
    at: usize,
    node: Node,
    luts: &mut [u8],
    cuts: &mut [u16],
    tables: &mut [u64],
)
    requires whole { leaves_end (due_of terms) sheet.now (lut_cut (due_of terms) sheet.now at) + rows_size ≤ length sheet.now }
    requires lut_room { LutRoom (node.id + 1) (lut_arrays luts.old cuts.old tables.old) }
    ensures { LutPut (lut_listed (lut_at (due_of terms) sheet.now at)) node.id (lut_arrays luts.old cuts.old tables.old) (lut_arrays luts.new cuts.new tables.new) }
{
    let v = node.id as usize;
    let width = terms.form.width;
    let cut = at + FRAME + width;
    let size = size_at(sheet, cut);
    luts[v] = 1;
    tables[v] = number_at(
        sheet,
        cut + COUNT_SIZE + size.leaves as usize * width,
        ROWS_SIZE,
    );
    put_list(terms, sheet, cut + COUNT_SIZE, size, cuts, node);
}
