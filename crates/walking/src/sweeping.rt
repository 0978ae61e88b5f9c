// The order of the gates, by sweeps.
ghost use Rattle.std.specs.Prelude.{length, take};
ghost use Rattle.storage.specs.Drawings.{net_in, Fed};
ghost use Rattle.storage.specs.Marks.{Tells};
ghost use Rattle.storage.specs.Lists.{list_at};
ghost use Rattle.walking.specs.Gathering.{AllMarked, AddRoom, Added, Listing, Listed};
ghost use Rattle.walking.specs.Sweeps.{swept, order_of};

use crate::gathering::add;
use storage::lists::list_at;
use storage::marks::is_marked;
use storage::{Node, Numbers};

// Are all fanins of the gate marked?
fn is_ready(fanins: &[u16], gate: Node, marks: &[u8]) -> bool
    requires { Fed fanins.now gate.id (length marks.now) }
    ensures { Tells (AllMarked (list_at fanins.now gate.id) marks.now) result }
{
    for id in list_at(fanins, gate) {
        if !is_marked(marks, Node { id: *id }) {
            return false;
        }
    }
    true
}

// The gate's turn in a sweep: it is placed, unless it is placed already or a fanin is not.
fn place(fanins: &[u16], order: &mut [u16], marks: &mut [u8], size: usize, gate: Node) -> usize
    requires fed { Fed fanins.now gate.id (length marks.old) }
    requires add_room { AddRoom order.old marks.old size gate.id }
    ensures { Added (list_at fanins.now gate.id) gate.id order.old marks.old size
        order.new marks.new result }
{
    if is_marked(marks, gate) {
        return size;
    }
    if !is_ready(fanins, gate, marks) {
        return size;
    }
    add(order, marks, size, gate)
}

// One sweep over the gates in id order.
fn sweep(
    numbers: Numbers,
    fanins: &[u16],
    order: &mut [u16],
    marks: &mut [u8],
    size: usize,
) -> usize
    requires { Listing numbers.inputs numbers.nodes fanins.now order.old marks.old size }
    ensures { Listed numbers.inputs numbers.nodes fanins.now order.old marks.old order.new marks.new result
        (swept (net_in numbers.inputs numbers.nodes fanins.now) (take size order.old)) }
{
    let mut placed = size;
    for v in numbers.inputs..numbers.nodes {
        placed = place(fanins, order, marks, placed, Node { id: v as u16 });
    }
    placed
}

// Sweeps until all gates are placed, or a sweep places none.
pub fn sweep_all(numbers: Numbers, fanins: &[u16], order: &mut [u16], marks: &mut [u8]) -> usize
    requires { Listing numbers.inputs numbers.nodes fanins.now order.old marks.old 0 }
    ensures { Listed numbers.inputs numbers.nodes fanins.now order.old marks.old order.new marks.new result
        (order_of (net_in numbers.inputs numbers.nodes fanins.now)) }
{
    let gates = numbers.nodes - numbers.inputs;
    let mut placed: usize = 0;
    // how many sweeps there are shows only when one places none
    while placed < gates {
        let next = sweep(numbers, fanins, order, marks, placed);
        if next == placed {
            return placed;
        }
        placed = next;
    }
    placed
}
