// For a gate: K + 1 disjoint paths from inputs to the fanins of D, or the least cut outside D with the largest cone.
#![tactic(auto)]

mod augmenting;
mod cells;
mod reading;
mod rounds;
mod searching;

ghost use Rattle.flow.specs.Reads.{ReadAsked, PathRead};
ghost use Rattle.flow.specs.Answer.{FlowAsked, FlowAnswer};

use crate::cells::Column;
use storage::{CutSize, Net, Numbers, fill};

// How many columns the links have.
const COLUMNS: usize = 5;

// Finds the mapper's cut outside D, and answers how many leaves it has; or K + 1 paths, which show that there is none. `roles` mark the nodes behind
// the gate outside D and those of them that feed D; `links` has five places for each node, and `cut` has room for six leaves.
pub fn find(net: Net, roles: &[u8], links: &mut [u16], cut: &mut [u16]) -> Option<CutSize>
    requires { FlowAsked net.numbers.inputs net.numbers.nodes net.numbers.k.leaves net.fanins.now net.order.now roles.now links.old cut.old }
    ensures { FlowAnswer net.entry.numbers.inputs net.entry.numbers.nodes net.entry.numbers.k.leaves net.entry.fanins.now roles.now
        links.old cut.old result links.new cut.new }
{
    let nodes = net.numbers.nodes;
    let gates = nodes - net.numbers.inputs;
    let outcome = rounds::run(
        Net {
            order: &net.order[..gates],
            ..net
        },
        &roles[..nodes],
        links,
    );
    let Some(size) = outcome else {
        cells::clear(links, nodes, Column::Ins, 3);
        return None;
    };
    rounds::write_leaves(nodes, links, cut);
    fill(links, COLUMNS * nodes, 0);
    Some(size)
}

// Reads the i-th of the paths that stand in the links: writes its ids in order to the front of the third column, which is free then, and answers how
// many they are.
pub fn read_path(numbers: Numbers, links: &mut [u16], i: usize) -> usize
    requires { ReadAsked numbers.inputs numbers.nodes links.old }
    ensures { PathRead numbers.inputs numbers.nodes links.old i result links.new }
{
    let nodes = numbers.nodes;
    let start = reading::path_start(links, numbers.inputs, nodes, i);
    let Some(first) = start else {
        return 0;
    };
    reading::write_path(links, nodes, first)
}
