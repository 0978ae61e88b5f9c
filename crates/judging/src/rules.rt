// Rules 25, 26 and 27 at a gate: is each kept?
ghost use Rattle.std.specs.Prelude.{◌≡◌, suc, ◌+◌, ◌≤◌, ◌<◌, length};
ghost use Rattle.storage.specs.Drawings.{net_in};
ghost use Rattle.storage.specs.Marks.{Tells};
ghost use Rattle.storage.specs.Lists.{list_at};
ghost use Rattle.walking.specs.Promises.{CutRuled};
ghost use Rattle.area.specs.Area.{label_in};
ghost use Rattle.sheet.specs.paper.Shape.{paths_at};
ghost use Rattle.sheet.specs.paper.Rules.{PathsKept};
ghost use Rattle.judging.specs.Gates.{paths_place, line_paths_in, CutAsked, LabelAsked, LabelRight, EvidenceAsked, TruePaths, Told, PathsRuleAsked};

use crate::paths::are_paths;
use covering::covers::depth;
use drawing::bytes::number_at;
use sheet::Form;
use storage::lists::list_at;
use storage::marks::label_of;
use storage::{Label, Net, Node};

// 25: are the leaves of the gate's line a cut of the gate?
pub fn keeps_cut(net: Net, gate: Node, cuts: &[u16], roles: &mut [u8]) -> bool
    requires { CutAsked net.numbers.inputs net.numbers.nodes net.numbers.k.leaves net.fanins.now net.order.now gate.id cuts.now roles.old }
    ensures { CutRuled (net_in net.entry.numbers.inputs net.entry.numbers.nodes net.entry.fanins.now) net.entry.numbers.k.leaves (list_at cuts.now gate.id) gate.id
        roles.old result roles.new }
{
    walking::is_cut(net, gate, list_at(cuts, gate), roles)
}

// 26: is the gate's label 1 + the greatest label of its leaves, and p or p + 1?
pub fn keeps_label(labels: &[u16], cuts: &[u16], gate: Node, p: Label) -> bool
    requires { LabelAsked labels.now cuts.now gate.id }
    ensures { Tells (LabelRight (label_in labels.now) (list_at cuts.now gate.id) p.depth gate.id) result }
{
    let deepest = depth(labels, list_at(cuts, gate));
    let label = label_of(labels, gate);
    if label.depth as usize != deepest.depth as usize + 1 {
        return false;
    }
    if label.depth == p.depth {
        return true;
    }
    label.depth as usize == p.depth as usize + 1
}

// Where the q of the line at `at` stands.
fn paths_place(form: Form, sheet: &[u8], at: usize) -> usize
    requires width_in_bounds { at + 3 + form.width + 1 ≤ length sheet.now }
    requires at_in_bounds { paths_place form sheet.now at ≤ length sheet.now }
    ensures { result ≡ paths_place form sheet.now at }
{
    let width = form.width;
    let cut = at + 3 + width;
    let size = number_at(sheet, cut, 1) as usize;
    cut + 1 + size * width
}

// Are the `q` paths from a place on true, with no node on two? What lies behind the gate is walked afresh, with no leaves, and the paths
// take their nodes from the area.
fn has_evidence(
    net: Net,
    gate: Node,
    labels: &[u16],
    p: Label,
    sheet: &[u8],
    at: usize,
    width: usize,
    q: usize,
    roles: &mut [u8],
) -> bool
    requires { EvidenceAsked net.numbers.inputs net.numbers.nodes net.numbers.k.leaves net.fanins.now net.order.now
        gate.id labels.now p.depth sheet.now at width q roles.old }
    ensures { Told net.entry.numbers.nodes
        (TruePaths (net_in net.entry.numbers.inputs net.entry.numbers.nodes net.entry.fanins.now) (label_in labels.now) gate.id (paths_at sheet.now at width q))
        roles.old result roles.new }
{
    walking::walk(net, gate, &[], roles);
    area::mark_area(net.numbers, net.fanins, gate, labels, p, roles);
    are_paths(net.fanins, net.numbers.inputs, sheet, at, width, q, roles)
}

// 27: is evidence given exactly where it is due, and then true?
pub fn keeps_paths(
    net: Net,
    form: Form,
    labels: &[u16],
    gate: Node,
    p: Label,
    sheet: &[u8],
    at: usize,
    roles: &mut [u8],
) -> bool
    requires { PathsRuleAsked form net.numbers.inputs net.numbers.nodes net.numbers.k.leaves net.fanins.now net.order.now
        gate.id labels.now p.depth sheet.now at roles.old }
    ensures { Told net.entry.numbers.nodes
        (PathsKept (net_in net.entry.numbers.inputs net.entry.numbers.nodes net.entry.fanins.now) net.entry.numbers.k.leaves (label_in labels.now) gate.id
        (line_paths_in form sheet.now at))
        roles.old result roles.new }
{
    let width = form.width;
    let place = paths_place(form, sheet, at);
    let q = number_at(sheet, place, 1) as usize;
    if !owes(labels, gate, p) {
        return q == 0;
    }
    let k = net.numbers.k;
    if q != k.leaves as usize + 1 {
        return false;
    }
    has_evidence(net, gate, labels, p, sheet, place + 1, width, q, roles)
}

// Does the gate owe evidence: is its label p + 1, and p at least 1?
fn owes(labels: &[u16], gate: Node, p: Label) -> bool
    requires { gate.id < length labels.now }
    ensures { Tells ((label_in labels.now gate.id ≡ suc p.depth) × (1 ≤ p.depth)) result }
{
    1 <= p.depth && label_of(labels, gate).depth as usize == p.depth as usize + 1
}
