// The two passes that mark an area.
ghost use Rattle.std.specs.Prelude.{◌≡◌, length};
ghost use Rattle.storage.specs.Lists.{list_at};
ghost use Rattle.storage.specs.Roles.{met_bit};
ghost use Rattle.storage.specs.Drawings.{Fed};
ghost use Rattle.area.specs.Passes.{IsDeep, Becomes, SplitAsked, Split, FaninsMarked, EndsAsked, EndsMarked};

use storage::lists::list_at;
use storage::marks::label_of;
use storage::roles::{AREA, AWAY, DEEP, END, says_met};
use storage::{Label, Node, Numbers};

// What becomes of a node. Inputs are never in D.
fn turned(inputs: usize, gate: Node, p: Label, node: Node, label: Label, role: u8) -> u8
    ensures { Becomes (IsDeep inputs gate.id p.depth node.id label.depth (met_bit role)) (met_bit role ≡ 1) result }
{
    if node == gate {
        return DEEP;
    }
    if !says_met(role) {
        return AWAY;
    }
    if (node.id as usize) < inputs {
        return AREA;
    }
    if label == p { DEEP } else { AREA }
}

// Turns each node by itself: into D, the area or away.
pub fn split(numbers: Numbers, gate: Node, labels: &[u16], p: Label, roles: &mut [u8])
    requires { SplitAsked numbers.nodes labels.now roles.old }
    ensures { Split numbers.inputs numbers.nodes gate.id p.depth labels.now roles.old roles.new }
{
    for v in 0..numbers.nodes {
        let node = Node { id: v as u16 };
        roles[v] = turned(
            numbers.inputs,
            gate,
            p,
            node,
            label_of(labels, node),
            roles[v],
        );
    }
}

// The gate's fanins that lie in the area are ends.
fn mark_fanins(fanins: &[u16], gate: Node, roles: &mut [u8])
    requires { Fed fanins.now gate.id (length roles.old) }
    ensures { FaninsMarked (list_at fanins.now gate.id) roles.old roles.new }
{
    for id in list_at(fanins, gate) {
        let v = *id as usize;
        if roles[v] == AREA {
            roles[v] = END;
        }
    }
}

// The fanins of D that lie in the area are ends. No member of D is turned, so D stands in the roles while ends are marked there.
pub fn mark_ends(nodes: usize, fanins: &[u16], roles: &mut [u8])
    requires { EndsAsked nodes fanins.now roles.old }
    ensures { EndsMarked nodes fanins.now roles.old roles.new }
{
    for d in 0..nodes {
        if roles[d] == DEEP {
            mark_fanins(fanins, Node { id: d as u16 }, roles);
        }
    }
}
