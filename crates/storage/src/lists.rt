// Ids in an array: one after the other, as in an order or among leaves; or lists of up to six, seven places a node: how many, then the ids,
// as fanins lie, and cuts.
ghost use Rattle.std.specs.Prelude.{◌≡◌, ◌+◌, ◌*◌, ◌≤◌, ◌<◌, length, get_or, set};
ghost use Rattle.storage.specs.Lists.{size_at, entry_at, list_at};

use crate::{CutSize, Node};

// The id at a place.
pub fn node_at(ids: &[u16], at: usize) -> Node
    requires { at < length ids.now }
    ensures { result.id ≡ get_or ids.now at 0 }
{
    Node { id: ids[at] }
}

pub fn put_node(ids: &mut [u16], at: usize, node: Node)
    requires { at < length ids.old }
    ensures { ids.new ≡ set ids.old at node.id }
{
    ids[at] = node.id;
}

// How many places a node's list takes.
pub const PLACES: usize = 7;

// How many ids the node's list has.
pub fn size_at(lists: &[u16], node: Node) -> usize
    requires { 7 * node.id < length lists.now }
    ensures { result ≡ size_at lists.now node.id }
{
    let at = PLACES * (node.id as usize);
    lists[at] as usize
}

// The node's list.
pub fn list_at(lists: &[u16], node: Node) -> &[u16]
    requires id_in_bounds { 7 * node.id + 7 ≤ length lists.now }
    requires size_bound { size_at lists.now node.id ≤ 6 }
    ensures { result.now ≡ list_at lists.now node.id }
{
    let at = PLACES * (node.id as usize) + 1;
    &lists[at..at + size_at(lists, node)]
}

// The i-th id of the node's list.
pub fn entry_at(lists: &[u16], node: Node, i: usize) -> Node
    requires i_bound { i < 6 }
    requires id_in_bounds { 7 * node.id + 7 ≤ length lists.now }
    ensures { result.id ≡ entry_at lists.now node.id i }
{
    node_at(lists, PLACES * (node.id as usize) + 1 + i)
}

// A size that is a cut's: at most six.
pub fn cut_size(lists: &[u16], node: Node) -> CutSize
    requires id_in_bounds { 7 * node.id < length lists.now }
    requires id_bound { size_at lists.now node.id ≤ 6 }
    ensures { result.leaves ≡ size_at lists.now node.id }
{
    let at = PLACES * (node.id as usize);
    CutSize {
        leaves: lists[at] as u8,
    }
}

pub fn put_size(lists: &mut [u16], node: Node, size: CutSize)
    requires { 7 * node.id < length lists.old }
    ensures { lists.new ≡ set lists.old (7 * node.id) size.leaves }
{
    let at = PLACES * (node.id as usize);
    lists[at] = size.leaves as u16;
}
