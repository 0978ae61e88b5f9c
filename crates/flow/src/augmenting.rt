// One more path: from the end that the search reached, back along the way on which it was reached, links are stored and taken away.
ghost use Rattle.std.specs.Prelude.{◌*◌};
ghost use Rattle.storage.specs.Entries.{Beyond};
ghost use Rattle.flow.specs.Augments.{FreeAsked, FreedIn, StepAsked, SteppedIn, RoundAsked, RoundDone};

use crate::cells::{Column, Link, link_at, put_link};
use crate::searching::search;
use storage::{Net, Node};

// Sends v to the sink. The answer starts at the source then: v itself, where it was unused, or the node that it fed.
fn free(nodes: usize, links: &mut [u16], v: Node) -> Node
    requires { FreeAsked nodes links.old v.id }
    ensures { FreedIn nodes links.old v.id result.id links.new }
{
    let start = match link_at(links, nodes, Column::Next, v) {
        Link::To(g) => g,
        _ => v,
    };
    put_link(links, nodes, Column::Next, v, Link::Edge);
    put_link(links, nodes, Column::Prev, start, Link::Edge);
    start
}

// The loose node was reached from v's out-state: v is freed and feeds it, or drops out where v is the loose node itself.
fn step_back(nodes: usize, links: &mut [u16], loose: Node, v: Node) -> Node
    requires { StepAsked nodes links.old loose.id v.id }
    ensures { SteppedIn nodes links.old loose.id v.id result.id links.new }
{
    let freed = free(nodes, links, v);
    if v.id == loose.id {
        put_link(links, nodes, Column::Next, loose, Link::Nowhere);
        put_link(links, nodes, Column::Prev, loose, Link::Nowhere);
        return freed;
    }
    put_link(links, nodes, Column::Next, v, Link::To(loose));
    put_link(links, nodes, Column::Prev, loose, Link::To(v));
    freed
}

// One round: a search, and the path that it found. Answers whether there was one.
pub fn add_path(net: Net, roles: &[u8], links: &mut [u16]) -> bool
    requires { RoundAsked net.numbers.inputs net.numbers.nodes net.fanins.now net.order.now roles.now links.old }
    ensures round_done { RoundDone net.entry.numbers.inputs net.entry.numbers.nodes net.entry.fanins.now roles.now links.old result links.new }
    ensures beyond { Beyond (5 * net.entry.numbers.nodes) links.old links.new }
{
    let sought = search(net, roles, links);
    let Some(end) = sought else {
        return false;
    };
    let mut loose = free(net.numbers.nodes, links, end);
    while let Link::To(v) = link_at(links, net.numbers.nodes, Column::Parent, loose) {
        loose = step_back(net.numbers.nodes, links, loose, v);
    }
    true
}
