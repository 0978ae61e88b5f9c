// The LUTs that the outputs need: "the output gates, then their gate leaves, and so back to the inputs; a gate needed twice stands once."
ghost use Rattle.std.specs.Prelude.{◌≡◌, map, ◌<◌, length, get_or, take};
ghost use Rattle.theory.specs.paper.Lists.{greatest};
ghost use Rattle.covering.specs.Covers.{CoverAsked, CoverMade, is_root, lut_count, GateMarked, GatesFit, GatesMarked, LeavesFit, LeavesMarked, MarksFit, DepthAsked};

use storage::lists::{PLACES, node_at, size_at};
use storage::marks::{label_of, larger};
use storage::{Label, Node, Numbers, fill};

// A gate is marked, an input is not.
fn mark_gate(node: Node, inputs: usize, marks: &mut [u8])
    requires { node.id < length marks.old }
    ensures { GateMarked node.id inputs marks.old marks.new }
{
    let v = node.id as usize;
    if inputs <= v {
        marks[v] = 1;
    }
}

// The gates among the `many` nodes from place `at` on are marked.
pub fn mark_gates(ids: &[u16], at: usize, many: usize, inputs: usize, marks: &mut [u8])
    requires { GatesFit ids.now at many (length marks.old) }
    ensures { GatesMarked ids.now at many inputs marks.old marks.new }
{
    for &id in &ids[at..at + many] {
        mark_gate(Node { id }, inputs, marks);
    }
}

// The gates among the leaves that `cuts` holds for a node are marked.
pub fn mark_leaves(cuts: &[u16], node: Node, inputs: usize, marks: &mut [u8])
    requires { LeavesFit cuts.now node.id (length marks.old) }
    ensures { LeavesMarked cuts.now node.id inputs marks.old marks.new }
{
    let at = PLACES * (node.id as usize) + 1;
    mark_gates(cuts, at, size_at(cuts, node), inputs, marks);
}

// How many of the first `nodes` marks are set.
fn count_marks(marks: &[u8], nodes: usize) -> usize
    requires { MarksFit marks.now nodes }
    ensures { result ≡ lut_count (is_root nodes marks.now) nodes }
{
    marks[..nodes].iter().filter(|&&mark| mark == 1).count()
}

// Marks the roots of the LUTs that the outputs need, where `cuts` holds the cut chosen for each gate, and answers how many LUTs there are.
// One pass back along the order: when a gate's turn comes, all that could need it had theirs.
pub fn cover(
    numbers: Numbers,
    order: &[u16],
    cuts: &[u16],
    outputs: &[u16],
    luts: &mut [u8],
) -> usize
    requires { CoverAsked numbers.inputs numbers.nodes order.now cuts.now outputs.now numbers.roots (length luts.old) }
    ensures { CoverMade numbers.inputs numbers.nodes cuts.now (take numbers.roots outputs.now)
        luts.old result luts.new }
{
    let inputs = numbers.inputs;
    let nodes = numbers.nodes;
    let number = numbers.roots;
    fill(luts, nodes, 0);
    mark_gates(outputs, 0, number, inputs, luts);
    for i in (0..nodes - inputs).rev() {
        let gate = node_at(order, i);
        if luts[gate.id as usize] == 1 {
            mark_leaves(cuts, gate, inputs, luts);
        }
    }
    count_marks(luts, nodes)
}

// The depth of a cover whose roots' depths are their labels: the greatest label of the outputs.
pub fn depth(labels: &[u16], outputs: &[u16]) -> Label
    requires { DepthAsked labels.now outputs.now }
    ensures { result.depth ≡ greatest (map (λ v. get_or labels.now v 0) outputs.now) }
{
    let mut best = Label { depth: 0 };
    for &id in outputs {
        best = larger(best, label_of(labels, Node { id }));
    }
    best
}
