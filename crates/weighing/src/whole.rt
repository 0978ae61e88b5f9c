// Pass four, on the whole: "28, then 30".
ghost use Rattle.std.specs.Prelude.{length, take};
ghost use Rattle.weighing.specs.PassFour.{WholeAsked, WholeAnswered, CoverAsked, WantedMarked, Comparable, Compared, CoverTold};
ghost use Rattle.weighing.specs.PassFour.{DepthFits, DepthSet, DepthsAsked, DepthsFound, DeepAsked, DeepTold};

use covering::covers::{depth, mark_gates, mark_leaves};
use storage::lists::{list_at, node_at};
use storage::marks::{above, put_label};
use storage::{Label, Node, Numbers, fill};

// The rule of the whole that is broken: 28, with the lowest gate that breaks it, or 30.
#[derive(Clone, Copy)]
pub enum WholeFault {
    Cover(Node),
    Depth,
}

// Marks the gates that are an output or a leaf of a listed LUT: one pass over the outputs, and one over the leaves.
fn mark_wanted(numbers: Numbers, luts: &[u8], cuts: &[u16], outputs: &[u16], wanted: &mut [u8])
    requires { CoverAsked numbers.inputs numbers.nodes luts.now cuts.now outputs.now numbers.roots
        (length wanted.old) }
    ensures { WantedMarked numbers.inputs numbers.nodes luts.now cuts.now
        (take numbers.roots outputs.now) wanted.old wanted.new }
{
    let inputs = numbers.inputs;
    let nodes = numbers.nodes;
    let number = numbers.roots;
    fill(wanted, nodes, 0);
    mark_gates(outputs, 0, number, inputs, wanted);
    for v in inputs..nodes {
        if luts[v] == 1 {
            mark_leaves(cuts, Node { id: v as u16 }, inputs, wanted);
        }
    }
}

// The lowest gate that is a root and not marked, or marked and no root.
fn first_uncovered(numbers: Numbers, luts: &[u8], wanted: &[u8]) -> Option<Node>
    requires { Comparable numbers.inputs numbers.nodes luts.now wanted.now }
    ensures { Compared numbers.inputs numbers.nodes luts.now wanted.now result }
{
    for v in numbers.inputs..numbers.nodes {
        if luts[v] != wanted[v] {
            return Some(Node { id: v as u16 });
        }
    }
    None
}

// 28: is each gate that an output or a LUT wants a root, and no other gate? Names the lowest for which it does not hold.
fn judge_wanted(
    numbers: Numbers,
    luts: &[u8],
    cuts: &[u16],
    outputs: &[u16],
    wanted: &mut [u8],
) -> Option<Node>
    requires { CoverAsked numbers.inputs numbers.nodes luts.now cuts.now outputs.now numbers.roots
        (length wanted.old) }
    ensures { CoverTold numbers.inputs numbers.nodes luts.now cuts.now
        (take numbers.roots outputs.now) wanted.old result wanted.new }
{
    mark_wanted(numbers, luts, cuts, outputs, wanted);
    let found = first_uncovered(numbers, luts, wanted);
    fill(wanted, numbers.nodes, 0);
    found
}

// The depth of a root, from those of its leaves.
fn set_depth(luts: &[u8], cuts: &[u16], node: Node, depths: &mut [u16])
    requires { DepthFits luts.now cuts.now node.id depths.old }
    ensures { DepthSet luts.now cuts.now node.id depths.old depths.new }
{
    let v = node.id as usize;
    if luts[v] == 1 {
        let deepest = depth(depths, list_at(cuts, node));
        put_label(depths, node, above(deepest));
    }
}

// The roots' depths, along the order: when a root's turn comes, its leaves had theirs.
fn find_depths(numbers: Numbers, order: &[u16], luts: &[u8], cuts: &[u16], depths: &mut [u16])
    requires { DepthsAsked numbers.inputs numbers.nodes order.now luts.now cuts.now depths.old }
    ensures { DepthsFound numbers.inputs numbers.nodes luts.now cuts.now depths.old
        depths.new }
{
    let inputs = numbers.inputs;
    let nodes = numbers.nodes;
    let gates = nodes - inputs;
    for i in 0..gates {
        set_depth(luts, cuts, node_at(order, i), depths);
    }
}

// "the cover's depth is the greatest over outputs"
fn cover_depth(
    numbers: Numbers,
    order: &[u16],
    luts: &[u8],
    cuts: &[u16],
    outputs: &[u16],
    depths: &mut [u16],
) -> Label
    requires { DeepAsked numbers.inputs numbers.nodes order.now luts.now cuts.now outputs.now numbers.roots
        depths.old }
    ensures { DeepTold numbers.inputs numbers.nodes luts.now cuts.now
        (take numbers.roots outputs.now) depths.old result.depth depths.new }
{
    find_depths(numbers, order, luts, cuts, depths);
    let reached = depth(depths, &outputs[..numbers.roots]);
    fill(depths, numbers.nodes, 0);
    reached
}

// Pass four over the LUTs, the outputs and the labels that the arrays hold; `head` is the depth of the sheet's head. The scratch is left 0.
pub fn judge_whole(
    numbers: Numbers,
    order: &[u16],
    luts: &[u8],
    cuts: &[u16],
    outputs: &[u16],
    labels: &[u16],
    head: Label,
    wanted: &mut [u8],
    depths: &mut [u16],
) -> Result<(), WholeFault>
    requires { WholeAsked numbers.inputs numbers.nodes order.now luts.now cuts.now outputs.now numbers.roots labels.now
        wanted.old depths.old }
    ensures { WholeAnswered numbers.inputs numbers.nodes luts.now cuts.now
        (take numbers.roots outputs.now) labels.now head.depth wanted.old depths.old result
        wanted.new depths.new }
{
    fill(depths, numbers.nodes, 0);
    if let Some(gate) = judge_wanted(numbers, luts, cuts, outputs, wanted) {
        return Err(WholeFault::Cover(gate));
    }
    let reached = cover_depth(numbers, order, luts, cuts, outputs, depths);
    if reached.depth != head.depth {
        return Err(WholeFault::Depth);
    }
    let labelled = depth(labels, &outputs[..numbers.roots]);
    if labelled.depth != head.depth {
        return Err(WholeFault::Depth);
    }
    Ok(())
}
