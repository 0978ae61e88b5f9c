// A gate's probe: what lies behind it, D and the area, and then the flow.
ghost use Rattle.labelling.specs.Probing.{ProbeAsked, GateProbed};

use storage::{CutSize, Label, Net, Node};

// `cut` has room for six leaves.
pub fn probe_gate(
    net: Net,
    gate: Node,
    p: Label,
    labels: &[u16],
    roles: &mut [u8],
    links: &mut [u16],
    cut: &mut [u16],
) -> Option<CutSize>
    requires { ProbeAsked net.numbers.inputs net.numbers.nodes net.numbers.k.leaves net.fanins.now net.order.now
        gate.id p.depth labels.now roles.old links.old cut.old }
    ensures { GateProbed net.entry.numbers.inputs net.entry.numbers.nodes net.entry.numbers.k.leaves net.entry.fanins.now
        gate.id labels.now roles.old links.old cut.old result
        roles.new links.new cut.new }
{
    walking::walk(net, gate, &[], roles);
    area::mark_area(net.numbers, net.fanins, gate, labels, p, roles);
    flow::find(net, roles, links, cut)
}
