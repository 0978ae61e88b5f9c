// A line's paths, read from the sheet's bytes and checked node by node: each node of the paths is looked at once, with its fanins. A path
// takes its nodes by their roles: a node of the area that is taken is free no more, and an end that is taken stays an end.
ghost use Rattle.std.specs.Prelude.{◌≡◌, true, ◌&&◌, ◌+◌, ◌*◌, ◌≤◌, ◌<◌, length};
ghost use Rattle.storage.specs.Lists.{size_at, list_at};
ghost use Rattle.storage.specs.Roles.{area_in, ends_in};
ghost use Rattle.drawing.specs.paper.Bytes.{number_at, ids_at};
ghost use Rattle.theory.specs.paper.Evidence.{joined};
ghost use Rattle.theory.specs.Members.{is_member};
ghost use Rattle.sheet.specs.paper.Shape.{paths_at};
ghost use Rattle.judging.specs.Paths.{is_marked, goes_on, is_path, are_paths, Taken, GoesAsked, PathAsked, PathTold, PathsAsked, PathsTold};

use drawing::bytes::number_at;
use storage::Node;
use storage::lists::list_at;
use storage::roles::{END, TAKEN, TAKEN_END, is_end, is_free};

// The id that stands at a place. (What the paths' functions ask of a width, `IdsStand`, is less than `node_at` of shaping asks.)
fn id_at(s: &[u8], at: usize, width: usize) -> Node
    requires width_bound { width ≤ 8 }
    requires width_in_bounds { at + width ≤ length s.now }
    requires width_bound_2 { number_at s.now at width < 65536 }
    ensures { result.id ≡ number_at s.now at width }
{
    Node {
        id: number_at(s, at, width) as u16,
    }
}

// A path takes the node.
fn take(roles: &mut [u8], node: Node)
    requires id_in_bounds { node.id < length roles.old }
    requires id_value { is_marked (area_in roles.old) node.id ≡ true }
    ensures { Taken roles.old node.id roles.new }
{
    let v = node.id as usize;
    if roles[v] == END {
        roles[v] = TAKEN_END;
        return;
    }
    roles[v] = TAKEN;
}

// Is the node a fanin of the gate?
fn feeds(fanins: &[u16], node: Node, gate: Node) -> bool
    requires id_in_bounds { 7 * gate.id + 7 ≤ length fanins.now }
    requires id_bound { size_at fanins.now gate.id ≤ 6 }
    ensures { result ≡ is_member node.id (list_at fanins.now gate.id) }
{
    list_at(fanins, gate).contains(&node.id)
}

// Can the path go on from one node to the next?
fn follows(fanins: &[u16], node: Node, next: Node, roles: &[u8]) -> bool
    requires id_in_bounds { 7 * next.id + 7 ≤ length fanins.now }
    requires id_bound { size_at fanins.now next.id ≤ 6 }
    requires id_in_bounds_2 { next.id < length roles.now }
    ensures { result ≡ (is_member node.id (list_at fanins.now next.id) && is_marked (area_in roles.now) next.id) }
{
    feeds(fanins, node, next) && is_free(roles, next)
}

// Does the path go on from a node to its end, by the `size` ids from a place on?
fn goes_on(
    fanins: &[u16],
    node: Node,
    s: &[u8],
    at: usize,
    width: usize,
    size: usize,
    roles: &mut [u8],
) -> bool
    requires { GoesAsked fanins.now node.id s.now at width size roles.old }
    ensures { PathTold
        (goes_on fanins.now (ends_in roles.old) (area_in roles.old) node.id (ids_at s.now at width size))
        (ids_at s.now at width size) roles.old result roles.new }
{
    let mut last = node;
    let mut place = at;
    for _ in 0..size {
        let next = id_at(s, place, width);
        if !follows(fanins, last, next, roles) {
            return false;
        }
        take(roles, next);
        last = next;
        place += width;
    }
    is_end(roles, last)
}

// Is what stands there a path: from an input, along fanins, over free nodes, to an end? Its nodes are taken.
fn is_path(
    fanins: &[u16],
    inputs: usize,
    s: &[u8],
    at: usize,
    width: usize,
    size: usize,
    roles: &mut [u8],
) -> bool
    requires { PathAsked fanins.now s.now at width size roles.old }
    ensures { PathTold
        (is_path fanins.now (ends_in roles.old) inputs (area_in roles.old) (ids_at s.now at width size))
        (ids_at s.now at width size) roles.old result roles.new }
{
    let first = id_at(s, at, width);
    if inputs <= first.id as usize {
        return false;
    }
    if !is_free(roles, first) {
        return false;
    }
    take(roles, first);
    goes_on(fanins, first, s, at + width, width, size - 1, roles)
}

// Are the `q` that stand from a place on all paths, with no node on two?
pub fn are_paths(
    fanins: &[u16],
    inputs: usize,
    s: &[u8],
    at: usize,
    width: usize,
    q: usize,
    roles: &mut [u8],
) -> bool
    requires { PathsAsked fanins.now s.now at width q roles.old }
    ensures { PathsTold
        (are_paths fanins.now (ends_in roles.old) inputs (area_in roles.old) (paths_at s.now at width q))
        (joined (paths_at s.now at width q)) roles.old result roles.new }
{
    let mut place = at;
    for _ in 0..q {
        let size = number_at(s, place, width) as usize;
        let from = place + width;
        if !is_path(fanins, inputs, s, from, width, size, roles) {
            return false;
        }
        place = from + size * width;
    }
    true
}
