// The links of the flow, in columns, and what their entries say.
ghost use Rattle.std.specs.Prelude.{◌≡◌, ◌*◌, ◌≤◌, ◌<◌, get_or};
ghost use Rattle.storage.specs.Columns.{column as columnOf};
ghost use Rattle.flow.specs.Links.{place, code_of};
ghost use Rattle.flow.specs.Cells.{CellIn, Stored, ColumnsIn, Cleared};

use storage::{Node, fill};

// The columns, in their order: where paths lead, and what the search for one more found.
#[derive(Clone, Copy)]
pub enum Column {
    Next,
    Prev,
    Ins,
    Outs,
    Parent,
}

pub fn start_of(column: Column, nodes: usize) -> usize
    requires { nodes ≤ 32767 }
    ensures { result ≡ place column * nodes }
{
    column as usize * nodes
}

// A state that was not found has this for its number: a column is lent, of plain numbers, so no Option stands in it (fixed memory).
pub const NOT_FOUND: u16 = 0;

// What a link says: nothing; the edge of the flow, which is the sink ahead and the source behind; or a node.
#[derive(Clone, Copy)]
pub enum Link {
    Nowhere,
    Edge,
    To(Node),
}

// In a column a link to a node is its id on top of the first one's code; the two codes below are the other links.
const FIRST_NODE: u16 = 2;

impl From<u16> for Link {
    ghost from_gives = { λ code link. code_of link ≡ code };

    fn from(code: u16) -> Self {
        match code {
            0 => Link::Nowhere,
            1 => Link::Edge,
            _ => Link::To(Node {
                id: code - FIRST_NODE,
            }),
        }
    }
}

fn code_of(link: Link) -> u16
    requires { code_of link < 65536 }
    ensures { result ≡ code_of link }
{
    match link {
        Link::Nowhere => 0,
        Link::Edge => 1,
        Link::To(v) => v.id + FIRST_NODE,
    }
}

// A column's start is made a slice of its own, so that a loop finds it but once. `nodes` is how high a column is, and no length: five lie in one lent slice.
pub fn at(links: &[u16], nodes: usize, column: Column, v: Node) -> u16
    requires { CellIn nodes (place column) v.id links.now }
    ensures { result ≡ get_or (columnOf nodes (place column) links.now) v.id 0 }
{
    let start = start_of(column, nodes);
    let part = &links[start..];
    let i = v.id as usize;
    part[i]
}

pub fn put(links: &mut [u16], nodes: usize, column: Column, v: Node, x: u16)
    requires { CellIn nodes (place column) v.id links.old }
    ensures { Stored nodes (place column) v.id x links.old links.new }
{
    let start = start_of(column, nodes);
    let part = &mut links[start..];
    let i = v.id as usize;
    part[i] = x;
}

pub fn link_at(links: &[u16], nodes: usize, column: Column, v: Node) -> Link
    requires { CellIn nodes (place column) v.id links.now }
    ensures { code_of result ≡ get_or (columnOf nodes (place column) links.now) v.id 0 }
{
    Link::from(at(links, nodes, column, v))
}

pub fn put_link(links: &mut [u16], nodes: usize, column: Column, v: Node, link: Link)
    requires cell { CellIn nodes (place column) v.id links.old }
    requires fits { code_of link < 65536 }
    ensures { Stored nodes (place column) v.id (code_of link) links.old links.new }
{
    put(links, nodes, column, v, code_of(link));
}

// Clears columns that lie side by side: one run of stores.
pub fn clear(links: &mut [u16], nodes: usize, first: Column, many: usize)
    requires { ColumnsIn nodes (place first) many links.old }
    ensures { Cleared nodes (place first) many links.old links.new }
{
    let start = start_of(first, nodes);
    let size = many * nodes;
    fill(&mut links[start..], size, 0);
}
