// Reads the paths off the links: the i-th start, and from there on as far as `next` leads.
ghost use Rattle.std.specs.Prelude.{◌≡◌, cond, ◌*◌, ◌≤◌, ◌<◌, length, eqb};
ghost use Rattle.storage.specs.Entries.{at as cell};
ghost use Rattle.flow.specs.Links.{next_in, prev_in, code_of};
ghost use Rattle.flow.specs.Cells.{CellIn};
ghost use Rattle.flow.specs.Paths.{follow};
ghost use Rattle.flow.specs.Reads.{ReadAsked, StartRead, Listed};

use crate::cells::{Column, Link, link_at, start_of};
use storage::Node;

// How many paths start at v: one or none.
fn starts_at(links: &[u16], nodes: usize, v: Node) -> usize
    requires { CellIn nodes 1 v.id links.now }
    ensures { result ≡ cond (eqb (cell (prev_in nodes links.now) v.id) 1) 1 0 }
{
    match link_at(links, nodes, Column::Prev, v) {
        Link::Edge => 1,
        _ => 0,
    }
}

// The i-th of the inputs at which a path starts, if there are so many.
pub fn path_start(links: &[u16], inputs: usize, nodes: usize, i: usize) -> Option<Node>
    requires { ReadAsked inputs nodes links.now }
    ensures { StartRead inputs nodes links.now i result }
{
    let mut seen: usize = 0;
    for v in 0..inputs {
        let start = Node { id: v as u16 };
        let more = seen + starts_at(links, nodes, start);
        if i < more {
            return Some(start);
        }
        seen = more;
    }
    None
}

// The link from v on; a node beyond the drawing has none.
fn link_of(links: &[u16], nodes: usize, v: Node) -> Link
    requires nodes_bound { nodes ≤ 32767 }
    requires nodes_in_bounds { 5 * nodes ≤ length links.now }
    ensures { code_of result ≡ cell (next_in nodes links.now) v.id }
{
    let i = v.id as usize;
    if i < nodes {
        return link_at(links, nodes, Column::Next, v);
    }
    Link::Nowhere
}

// Writes the ids from `first` on as far as `next` leads, and answers how many they are.
pub fn write_path(links: &mut [u16], nodes: usize, first: Node) -> usize
    requires nodes_bound { nodes ≤ 32767 }
    requires nodes_in_bounds { 5 * nodes ≤ length links.old }
    ensures { Listed (follow (cell (next_in nodes links.old)) nodes first.id) nodes links.old result links.new }
{
    let start = start_of(Column::Ins, nodes);
    let mut v = first;
    for j in 0..nodes {
        links[start + j] = v.id;
        let Link::To(next) = link_of(links, nodes, v) else {
            return j + 1;
        };
        v = next;
    }
    nodes
}
