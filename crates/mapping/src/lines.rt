// The gates' lines of the sheet. Evidence is looked for again, gate by gate, so that none has to be kept.
ghost use Rattle.storage.specs.Drawings.{net_in};
ghost use Rattle.mapping.specs.Lines.{LineAsked, LinesAsked, LineWritten, LinesWritten};

use crate::paths::{write_bare, write_proven};
use area::peak;
use labelling::evidence::find_evidence;
use labelling::owes_evidence;
use sheet::Form;
use storage::lists::list_at;
use storage::marks::label_of;
use storage::{Net, Node};

// One gate's line; the evidence is looked for only where it is due.
fn write_line(
    net: Net,
    form: Form,
    gate: Node,
    labels: &[u16],
    cuts: &[u16],
    roles: &mut [u8],
    links: &mut [u16],
    sheet: &mut [u8],
    at: usize,
) -> usize
    requires { LineAsked form net.numbers.inputs net.numbers.nodes net.numbers.k.leaves net.fanins.now net.order.now
        gate.id labels.now cuts.now roles.old links.old sheet.old at }
    ensures { LineWritten form (net_in net.entry.numbers.inputs net.entry.numbers.nodes net.entry.fanins.now)
        net.entry.numbers.k.leaves labels.now cuts.now gate.id sheet.old at
        sheet.new result }
{
    let leaves = list_at(cuts, gate);
    let label = label_of(labels, gate);
    let p = peak(net.fanins, gate, labels);
    if !owes_evidence(p, label) {
        return write_bare(form, label, leaves, sheet, at);
    }
    find_evidence(net, gate, labels, roles, links);
    write_proven(form, net.numbers, label, leaves, links, sheet, at)
}

// The lines of all gates, in id order.
pub fn write_lines(
    net: Net,
    form: Form,
    labels: &[u16],
    cuts: &[u16],
    roles: &mut [u8],
    links: &mut [u16],
    sheet: &mut [u8],
    at: usize,
) -> usize
    requires { LinesAsked form net.numbers.inputs net.numbers.nodes net.numbers.k.leaves net.fanins.now net.order.now
        labels.now cuts.now roles.old links.old sheet.old at }
    ensures { LinesWritten form (net_in net.entry.numbers.inputs net.entry.numbers.nodes net.entry.fanins.now)
        net.entry.numbers.k.leaves labels.now cuts.now net.entry.numbers.nodes sheet.old at
        sheet.new result }
{
    let mut to = at;
    for v in net.numbers.inputs..net.numbers.nodes {
        let gate = Node { id: v as u16 };
        to = write_line(net, form, gate, labels, cuts, roles, links, sheet, to);
    }
    to
}
