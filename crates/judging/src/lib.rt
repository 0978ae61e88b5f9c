// Pass two of the inspector: rules 25, 26 and 27 at each gate, by the labels, cuts and paths that a sheet claims.
#![tactic(auto)]

mod paths;
mod rules;

ghost use Rattle.std.specs.Prelude.{◌≡◌, [], ◌∷◌};
ghost use Rattle.storage.specs.Drawings.{net_in};
ghost use Rattle.sheet.specs.paper.Rules.{gates};
ghost use Rattle.judging.specs.Gates.{lined_of, JudgeAsked, GateAsked, GatesTried, GatesJudged};

use sheet::Form;
use storage::{Net, Node, fill};

// A rule that is not kept, with its gate.
#[derive(Clone, Copy)]
pub enum Broken {
    Cut(Node),
    Label(Node),
    Paths(Node),
}

// The three rules at one gate.
fn judge_gate(
    net: Net,
    form: Form,
    labels: &[u16],
    cuts: &[u16],
    places: &[u32],
    sheet: &[u8],
    gate: Node,
    roles: &mut [u8],
) -> Result<(), Broken>
    requires { GateAsked net.numbers.k.leaves net.numbers.inputs net.numbers.nodes net.fanins.now net.order.now
        (lined_of form labels.now cuts.now places.now sheet.now) gate.id roles.old }
    ensures { GatesTried net.entry.numbers.k.leaves net.entry.numbers.inputs net.entry.numbers.nodes net.entry.fanins.now
        (lined_of form labels.now cuts.now places.now sheet.now) (gate.id ∷ []) roles.old result roles.new }
{
    if !rules::keeps_cut(net, gate, cuts, roles) {
        return Err(Broken::Cut(gate));
    }
    let p = area::peak(net.fanins, gate, labels);
    if !rules::keeps_label(labels, cuts, gate, p) {
        return Err(Broken::Label(gate));
    }
    let v = gate.id as usize;
    let at = places[v] as usize;
    if !rules::keeps_paths(net, form, labels, gate, p, sheet, at, roles) {
        return Err(Broken::Paths(gate));
    }
    Ok(())
}

// The three rules at each gate, gates rising.
fn first_broken(
    net: Net,
    form: Form,
    labels: &[u16],
    cuts: &[u16],
    places: &[u32],
    sheet: &[u8],
    roles: &mut [u8],
) -> Result<(), Broken>
    requires { JudgeAsked net.numbers.k.leaves net.numbers.inputs net.numbers.nodes net.fanins.now net.order.now
        (lined_of form labels.now cuts.now places.now sheet.now) roles.old }
    ensures { GatesTried net.entry.numbers.k.leaves net.entry.numbers.inputs net.entry.numbers.nodes net.entry.fanins.now
        (lined_of form labels.now cuts.now places.now sheet.now)
        (gates (net_in net.entry.numbers.inputs net.entry.numbers.nodes net.entry.fanins.now)) roles.old result roles.new }
{
    for t in net.numbers.inputs..net.numbers.nodes {
        let gate = Node { id: t as u16 };
        judge_gate(net, form, labels, cuts, places, sheet, gate, roles)?;
    }
    Ok(())
}

// Pass two: tries 25, 26, 27 on each gate, gates rising, by the sheet's lines: their labels and cuts stand in the arrays, their paths in
// the bytes at `places`. Each gate costs a walk of the drawing, and each path's node its fanins. Whatever the roles held, their first
// `nodes` entries are left at 0.
pub fn judge_gates(
    net: Net,
    form: Form,
    labels: &[u16],
    cuts: &[u16],
    places: &[u32],
    sheet: &[u8],
    roles: &mut [u8],
) -> Result<(), Broken>
    requires { JudgeAsked net.numbers.k.leaves net.numbers.inputs net.numbers.nodes net.fanins.now net.order.now
        (lined_of form labels.now cuts.now places.now sheet.now) roles.old }
    ensures { GatesJudged net.entry.numbers.k.leaves net.entry.numbers.inputs net.entry.numbers.nodes net.entry.fanins.now
        (lined_of form labels.now cuts.now places.now sheet.now) roles.old result roles.new }
{
    let found = first_broken(net, form, labels, cuts, places, sheet, roles);
    fill(roles, net.numbers.nodes, 0);
    found
}
