// The gates' turns along the order.
ghost use Rattle.std.specs.Prelude.{◌-◌};
ghost use Rattle.labelling.specs.Turning.{TurnAsked, TurnTaken, AlongAsked, Along};

use crate::probing::probe_gate;
use crate::store_above;
use storage::lists::{PLACES, put_size};
use storage::marks::put_label;
use storage::{Net, Node};

// "If p is 0 it is 1. Otherwise .. the label is p exactly when a cut of t exists with all leaves outside D." The flow
// writes its cut to the gate's places.
fn settle(
    net: Net,
    gate: Node,
    labels: &mut [u16],
    cuts: &mut [u16],
    roles: &mut [u8],
    links: &mut [u16],
)
    requires { TurnAsked net.numbers.inputs net.numbers.nodes net.numbers.k.leaves net.fanins.now net.order.now
        gate.id labels.old cuts.old roles.old links.old }
    ensures { TurnTaken net.entry.numbers.inputs net.entry.numbers.nodes net.entry.numbers.k.leaves net.entry.fanins.now
        gate.id labels.old cuts.old roles.old links.old
        labels.new cuts.new roles.new links.new }
{
    let p = area::peak(net.fanins, gate, labels);
    if p.depth == 0 {
        store_above(net.fanins, gate, p, labels, cuts);
        return;
    }
    let at = PLACES * (gate.id as usize) + 1;
    let shown = probe_gate(net, gate, p, labels, roles, links, &mut cuts[at..]);
    let Some(size) = shown else {
        store_above(net.fanins, gate, p, labels, cuts);
        return;
    };
    put_label(labels, gate, p);
    put_size(cuts, gate, size);
}

// Each gate's turn, along the order: what lies behind a gate has its labels when the gate's turn comes.
pub fn settle_all(
    net: Net,
    labels: &mut [u16],
    cuts: &mut [u16],
    roles: &mut [u8],
    links: &mut [u16],
)
    requires { AlongAsked net.numbers.inputs net.numbers.nodes net.numbers.k.leaves net.fanins.now net.order.now
        labels.old cuts.old roles.old links.old }
    ensures { Along net.entry.numbers.inputs net.entry.numbers.nodes net.entry.numbers.k.leaves net.entry.fanins.now
        net.entry.order.now (net.entry.numbers.nodes - net.entry.numbers.inputs) labels.old cuts.old
        roles.old links.old labels.new cuts.new roles.new
        links.new }
{
    let gates = net.numbers.nodes - net.numbers.inputs;
    for id in &net.order[..gates] {
        let gate = Node { id: *id };
        settle(net, gate, labels, cuts, roles, links);
    }
}
