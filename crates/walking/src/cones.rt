// The walk's turns, and the tests of a cut.
ghost use Rattle.std.specs.Prelude.{◌≡◌, ℕ, ◌≤◌, ◌<◌, length, get_or};
ghost use mathlib.Core.List.{Memᴰ};
ghost use Rattle.storage.specs.Drawings.{Fed};
ghost use Rattle.storage.specs.Marks.{Tells};
ghost use Rattle.storage.specs.Lists.{list_at};
ghost use Rattle.storage.specs.Roles.{met_in};
ghost use Rattle.theory.specs.paper.Lists.{Rising};
ghost use Rattle.walking.specs.Walking.{meet_one, meet_all, Turned};

use storage::Node;
use storage::lists::list_at;
use storage::roles::{BOTH, MET, is_met, is_walked};

// Is the node among the leaves? (Hot, and there are six of them at most: a loop is laid out where it is called, and `contains` is a call.)
fn is_leaf(leaves: &[u16], node: Node) -> bool
    ensures { Tells (Memᴰ node.id leaves.now) result }
{
    for id in leaves {
        if *id == node.id {
            return true;
        }
    }
    false
}

// The node is met, and walked unless it is a leaf. (A root that is a leaf stays walked.)
fn meet(node: Node, leaves: &[u16], roles: &mut [u8])
    requires { node.id < length roles.old }
    ensures { roles.new ≡ meet_one leaves.now roles.old node.id }
{
    let v = node.id as usize;
    roles[v] = if is_leaf(leaves, node) && !is_walked(roles, node) {
        MET
    } else {
        BOTH
    };
}

fn meet_fanins(fanins: &[u16], gate: Node, leaves: &[u16], roles: &mut [u8])
    requires { Fed fanins.now gate.id (length roles.old) }
    ensures { roles.new ≡ meet_all leaves.now roles.old (list_at fanins.now gate.id) }
{
    for id in list_at(fanins, gate) {
        meet(Node { id: *id }, leaves, roles);
    }
}

// The gate's turn in the walk: if it is walked, its fanins are met. (Of the roles of a walk the odd ones are walked: one test.)
pub fn pass(fanins: &[u16], gate: Node, leaves: &[u16], roles: &mut [u8])
    requires fanins_in_bounds { Fed fanins.now gate.id (length roles.old) }
    requires id_in_bounds { gate.id < length roles.old }
    requires id_bound { get_or roles.old gate.id 0 ≤ 3 }
    ensures { Turned (list_at fanins.now gate.id) leaves.now gate.id roles.old roles.new }
{
    let v = gate.id as usize;
    if roles[v] % 2 == 0 {
        return;
    }
    meet_fanins(fanins, gate, leaves, roles);
}

// Do the leaves rise strictly?
pub fn is_rising(leaves: &[u16]) -> bool
    ensures { Tells (Rising leaves.now) result }
{
    leaves.is_sorted_by(|a, b| a < b)
}

// Is each leaf a node, and met?
pub fn leaves_met(leaves: &[u16], nodes: usize, roles: &[u8]) -> bool
    requires { nodes ≤ length roles.now }
    ensures { Tells ((v : ℕ) → Memᴰ v leaves.now → (v < nodes) × (get_or (met_in roles.now) v 0 ≡ 1)) result }
{
    for id in leaves {
        if nodes <= *id as usize || !is_met(roles, Node { id: *id }) {
            return false;
        }
    }
    true
}

// Is the node a leaf, if it is met?
fn stops(leaves: &[u16], node: Node, roles: &[u8]) -> bool
    requires { node.id < length roles.now }
    ensures { Tells (get_or (met_in roles.now) node.id 0 ≡ 1 → Memᴰ node.id leaves.now) result }
{
    !is_met(roles, node) || is_leaf(leaves, node)
}

// Is each input that is met a leaf?
pub fn inputs_stop(leaves: &[u16], inputs: usize, roles: &[u8]) -> bool
    requires inputs_in_bounds { inputs ≤ length roles.now }
    requires inputs_bound { inputs ≤ 32767 }
    ensures { Tells ((v : ℕ) → v < inputs → get_or (met_in roles.now) v 0 ≡ 1 → Memᴰ v leaves.now) result }
{
    for v in 0..inputs {
        if !stops(leaves, Node { id: v as u16 }, roles) {
            return false;
        }
    }
    true
}
