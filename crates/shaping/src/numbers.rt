// The numbers of a sheet as what they are: labels, nodes, how many leaves a cut has; and the ids of a cut.
ghost use Rattle.std.specs.Prelude.{◌≡◌, not, ◌+◌, ◌*◌, ◌≤◌, length};
ghost use Rattle.drawing.specs.paper.Bytes.{ids_at};
ghost use Rattle.drawing.specs.Bytes.{SmallAt};
ghost use Rattle.sheet.specs.paper.Limits.{count_size};
ghost use Rattle.sheet.specs.paper.Shape.{rising, leaves_range, leaves_at, leaves_end};
ghost use Rattle.shaping.specs.Terms.{due_of};

use crate::terms::Terms;
use drawing::bytes::{ids_below, small_at};
use sheet::limits::COUNT_SIZE;
use storage::{CutSize, Label, Node};

// `label_at`, `node_at` and `size_at` share `small_at`, and no more: one function for the three would need a trait that makes each type of its number.
pub fn label_at(terms: Terms, sheet: &[u8], at: usize) -> Label
    requires { at + terms.form.width ≤ length sheet.now }
    ensures { SmallAt sheet.now at terms.form.width result.depth }
{
    Label {
        depth: small_at(sheet, at, terms.form.width) as u16,
    }
}

pub fn node_at(terms: Terms, sheet: &[u8], at: usize) -> Node
    requires { at + terms.form.width ≤ length sheet.now }
    ensures { SmallAt sheet.now at terms.form.width result.id }
{
    Node {
        id: small_at(sheet, at, terms.form.width) as u16,
    }
}

pub fn size_at(sheet: &[u8], at: usize) -> CutSize
    requires { at + count_size ≤ length sheet.now }
    ensures { SmallAt sheet.now at count_size result.leaves }
{
    CutSize {
        leaves: small_at(sheet, at, COUNT_SIZE) as u8,
    }
}

// Do the `count` ids from `at` on rise?
pub fn ids_rise(terms: Terms, sheet: &[u8], at: usize, count: usize) -> bool
    requires le_count { 1 ≤ count }
    requires width_in_bounds { at + count * terms.form.width ≤ length sheet.now }
    ensures { result ≡ rising (ids_at sheet.now at terms.form.width count) }
{
    let mut before = node_at(terms, sheet, at);
    for i in 1..count {
        let node = node_at(terms, sheet, at + i * terms.form.width);
        if node.id <= before.id {
            return false;
        }
        before = node;
    }
    true
}

// Are the leaves behind the count at `at` as the range rules ask?
pub fn leaves_in_range(terms: Terms, sheet: &[u8], at: usize) -> bool
    requires { leaves_end (due_of terms) sheet.now at ≤ length sheet.now }
    ensures { result ≡ not (leaves_range (due_of terms) (leaves_at (due_of terms) sheet.now at)) }
{
    let size = size_at(sheet, at);
    if size.leaves < 1 {
        return false;
    }
    if terms.numbers.k.leaves < size.leaves {
        return false;
    }
    let count = size.leaves as usize;
    if !ids_rise(terms, sheet, at + COUNT_SIZE, count) {
        return false;
    }
    ids_below(
        sheet,
        at + COUNT_SIZE,
        terms.form.width,
        count,
        terms.numbers.nodes,
    )
}
