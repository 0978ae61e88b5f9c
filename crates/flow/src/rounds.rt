// The rounds: path after path, until there are K + 1 or the flow is full; and the leaves of a full flow.
ghost use Rattle.std.specs.Prelude.{◌≡◌, ◌*◌};
ghost use Rattle.std.proofs.lemmas.List.Edits.{sets};
ghost use Rattle.storage.specs.Entries.{Beyond};
ghost use Rattle.flow.specs.Rounds.{RunAsked, Ran, leaves_in, LeafPut, LeafAsked, LeavesAsked};

use crate::augmenting::add_path;
use crate::cells::{Column, NOT_FOUND, at, clear};
use storage::lists::put_node;
use storage::{CutSize, Net, Node};

// How many paths there are where the flow is full with at most K, as many as the least cut has leaves; nothing where there are K + 1.
pub fn run(net: Net, roles: &[u8], links: &mut [u16]) -> Option<CutSize>
    requires { RunAsked net.numbers.inputs net.numbers.nodes net.numbers.k.leaves net.fanins.now net.order.now roles.now links.old }
    ensures ran { Ran net.entry.numbers.inputs net.entry.numbers.nodes net.entry.numbers.k.leaves net.entry.fanins.now roles.now result links.new }
    ensures beyond { Beyond (5 * net.entry.numbers.nodes) links.old links.new }
{
    clear(links, net.numbers.nodes, Column::Next, 2);
    let rounds = net.numbers.k.leaves + 1;
    for number in 0..rounds {
        if !add_path(net, roles, links) {
            return Some(CutSize { leaves: number });
        }
    }
    None
}

// Writes v as the j-th leaf, if it is one; answers how many there are then.
fn put_leaf(nodes: usize, links: &[u16], v: Node, j: usize, cut: &mut [u16]) -> usize
    requires { LeafAsked nodes links.now v.id j cut.old }
    ensures { LeafPut nodes links.now v.id j cut.old result cut.new }
{
    if at(links, nodes, Column::Ins, v) == NOT_FOUND {
        return j;
    }
    if at(links, nodes, Column::Outs, v) != NOT_FOUND {
        return j;
    }
    put_node(cut, j, v);
    j + 1
}

// The leaves, rising: the nodes whose in-state was found and whose out-state was not.
pub fn write_leaves(nodes: usize, links: &[u16], cut: &mut [u16])
    requires { LeavesAsked nodes links.now cut.old }
    ensures { cut.new ≡ sets cut.old 0 (leaves_in nodes links.now) }
{
    let mut j: usize = 0;
    for i in 0..nodes {
        j = put_leaf(nodes, links, Node { id: i as u16 }, j, cut);
    }
}
