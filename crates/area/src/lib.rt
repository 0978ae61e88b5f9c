// The part of a drawing on which the search for paths works: p and D of a gate, what lies behind the gate outside D, and where paths end.
#![tactic(auto)]

mod passes;

ghost use Rattle.std.specs.Prelude.{length};
ghost use Rattle.storage.specs.Drawings.{net_in, Fed};
ghost use Rattle.area.specs.Area.{PeakIn, AreaAsked, AreaMarked, label_in};

use storage::lists::list_at;
use storage::marks::{label_of, larger};
use storage::{Label, Node, Numbers};

// p: the greatest label among the gate's fanins.
pub fn peak(fanins: &[u16], gate: Node, labels: &[u16]) -> Label
    requires { Fed fanins.now gate.id (length labels.now) }
    ensures { PeakIn fanins.now gate.id labels.now result.depth }
{
    let mut best = Label { depth: 0 };
    for id in list_at(fanins, gate) {
        best = larger(best, label_of(labels, Node { id: *id }));
    }
    best
}

// The roles come as the walk left them: met is what lies behind the gate. They become those of D, of the nodes behind the gate outside D,
// and of those of them that are fanins of D.
pub fn mark_area(
    numbers: Numbers,
    fanins: &[u16],
    gate: Node,
    labels: &[u16],
    p: Label,
    roles: &mut [u8],
)
    requires { AreaAsked numbers.inputs numbers.nodes fanins.now gate.id labels.now p.depth roles.old }
    ensures { AreaMarked (net_in numbers.inputs numbers.nodes fanins.now) (label_in labels.now) gate.id roles.old roles.new }
{
    passes::split(numbers, gate, labels, p, roles);
    passes::mark_ends(numbers.nodes, fanins, roles);
}
