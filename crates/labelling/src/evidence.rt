// The evidence of a gate that owes it.
ghost use Rattle.labelling.specs.Evidence.{EvidenceAsked, EvidenceFound};

use crate::probing::probe_gate;
use storage::{Net, Node, fill};

// Evidence for a gate that owes it, left in the links; a second search, so that no evidence is kept from gate to gate.
pub fn find_evidence(net: Net, gate: Node, labels: &[u16], roles: &mut [u8], links: &mut [u16])
    requires { EvidenceAsked net.numbers.inputs net.numbers.nodes net.numbers.k.leaves net.fanins.now net.order.now
        labels.now gate.id roles.old links.old }
    ensures { EvidenceFound net.entry.numbers.inputs net.entry.numbers.nodes net.entry.numbers.k.leaves net.entry.fanins.now
        labels.now gate.id roles.old links.old roles.new
        links.new }
{
    let p = area::peak(net.fanins, gate, labels);
    let mut cut = [0u16; 6];
    probe_gate(net, gate, p, labels, roles, links, &mut cut);
    fill(roles, net.numbers.nodes, 0);
}
