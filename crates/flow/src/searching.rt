// The search for one more path, by pull and sweep: it goes along the order and numbers each state that its fanins, its link or the source reach,
// until an end's out-state has a number, or a sweep gives none. Nothing in what it leaves says in which order it goes.
ghost use Rattle.std.specs.Prelude.{◌+◌, ◌<◌};
ghost use Rattle.storage.specs.Roles.{ends_in};
ghost use Rattle.flow.specs.Links.{next_in, ins_in, outs_in, code_of_found};
ghost use Rattle.flow.specs.Cells.{CellIn, PathsKept};
ghost use Rattle.flow.specs.Sweeps.{EndReached, EndAsked, SweepAsked, SweptSo, SearchAsked, SoughtSo};
ghost use Rattle.flow.specs.Turns.{FaninFound, Entered, Left, VisitedIn, InputEntered, VisitedOut, InputVisited, Visited};
ghost use Rattle.flow.specs.Turns.{InAsked, OutAsked, EnterAsked, LeaveAsked, InputAsked, GateAsked};

use crate::cells::{Column, Link, NOT_FOUND, at, clear, link_at, put, put_link};
use std::ops::ControlFlow;
use storage::lists::list_at;
use storage::roles::{END, is_free};
use storage::{Net, Node, Numbers};

// A fanin of v whose out-state was found.
fn found_fanin(numbers: Numbers, fanins: &[u16], links: &[u16], v: Node) -> Option<Node>
    requires { InAsked numbers.inputs numbers.nodes fanins.now links.now v.id }
    ensures { FaninFound fanins.now (outs_in numbers.nodes links.now) v.id (code_of_found result) }
{
    let nodes = numbers.nodes;
    for id in list_at(fanins, v) {
        let u = Node { id: *id };
        if at(links, nodes, Column::Outs, u) != NOT_FOUND {
            return Some(u);
        }
    }
    None
}

// From where the in-state of the gate v is reached: the out-state of a node, if any.
fn way_in(numbers: Numbers, fanins: &[u16], links: &[u16], v: Node) -> Option<Node>
    requires { InAsked numbers.inputs numbers.nodes fanins.now links.now v.id }
    ensures { Entered numbers.inputs fanins.now (next_in numbers.nodes links.now)
        (outs_in numbers.nodes links.now) v.id (code_of_found result) }
{
    let nodes = numbers.nodes;
    if let Some(u) = found_fanin(numbers, fanins, links, v) {
        return Some(u);
    }
    if let Link::Nowhere = link_at(links, nodes, Column::Next, v) {
        return None;
    }
    if at(links, nodes, Column::Outs, v) == NOT_FOUND {
        return None;
    }
    Some(v)
}

// Whether v's out-state is reached: through v, where v is unused, or back from the node that it feeds.
fn way_out(nodes: usize, links: &[u16], v: Node) -> bool
    requires { OutAsked nodes links.now v.id }
    ensures { Left (next_in nodes links.now) (ins_in nodes links.now) v.id result }
{
    match link_at(links, nodes, Column::Next, v) {
        Link::Nowhere => at(links, nodes, Column::Ins, v) != NOT_FOUND,
        Link::Edge => false,
        Link::To(g) => at(links, nodes, Column::Ins, g) != NOT_FOUND,
    }
}

// Numbers the in-state of the input v, which the source reaches, if it has no number yet; answers the last number given.
fn enter_input(nodes: usize, links: &mut [u16], v: Node, number: u16) -> u16
    requires cell_in { CellIn nodes 2 v.id links.old }
    requires number_bound { number < 65535 }
    ensures { InputEntered nodes links.old v.id number result links.new }
{
    if at(links, nodes, Column::Ins, v) != NOT_FOUND {
        return number;
    }
    put(links, nodes, Column::Ins, v, number + 1);
    put_link(links, nodes, Column::Parent, v, Link::Edge);
    number + 1
}

// Numbers the in-state of the gate v if it is reached and has none yet; answers the last number given.
fn enter_gate(numbers: Numbers, fanins: &[u16], links: &mut [u16], v: Node, number: u16) -> u16
    requires { EnterAsked numbers.inputs numbers.nodes fanins.now links.old v.id number }
    ensures { VisitedIn numbers.inputs numbers.nodes fanins.now links.old v.id number result links.new }
{
    let nodes = numbers.nodes;
    if at(links, nodes, Column::Ins, v) != NOT_FOUND {
        return number;
    }
    let Some(from) = way_in(numbers, fanins, links, v) else {
        return number;
    };
    put(links, nodes, Column::Ins, v, number + 1);
    put_link(links, nodes, Column::Parent, v, Link::To(from));
    number + 1
}

// Numbers the out-state of v if it is reached and has none yet; answers the last number given.
fn leave(nodes: usize, links: &mut [u16], v: Node, number: u16) -> u16
    requires { LeaveAsked nodes links.old v.id number }
    ensures { VisitedOut nodes links.old v.id number result links.new }
{
    if at(links, nodes, Column::Outs, v) != NOT_FOUND {
        return number;
    }
    if way_out(nodes, links, v) {
        put(links, nodes, Column::Outs, v, number + 1);
        return number + 1;
    }
    number
}

// Visits an input of the area: its in-state, then its out-state.
fn visit_input(nodes: usize, roles: &[u8], links: &mut [u16], v: Node, number: u16) -> u16
    requires { InputAsked nodes roles.now links.old v.id number }
    ensures { InputVisited nodes roles.now links.old v.id number result links.new }
{
    if !is_free(roles, v) {
        return number;
    }
    let entered = enter_input(nodes, links, v, number);
    leave(nodes, links, v, entered)
}

// Visits a gate of the area: its in-state, then its out-state.
fn visit_gate(
    numbers: Numbers,
    fanins: &[u16],
    roles: &[u8],
    links: &mut [u16],
    v: Node,
    number: u16,
) -> u16
    requires { GateAsked numbers.inputs numbers.nodes fanins.now roles.now links.old v.id number }
    ensures { Visited numbers.inputs numbers.nodes fanins.now roles.now links.old
        v.id number result links.new }
{
    if !is_free(roles, v) {
        return number;
    }
    let nodes = numbers.nodes;
    let entered = enter_gate(numbers, fanins, links, v, number);
    leave(nodes, links, v, entered)
}

// Whether v is an end whose out-state was found.
fn is_reached(nodes: usize, roles: &[u8], links: &[u16], v: Node) -> bool
    requires { EndAsked nodes roles.now links.now v.id }
    ensures { EndReached (ends_in roles.now) (outs_in nodes links.now) v.id result }
{
    let i = v.id as usize;
    if roles[i] == END {
        return at(links, nodes, Column::Outs, v) != NOT_FOUND;
    }
    false
}

// One sweep over inputs and order, from the last number given so far: the end that it reached, or the last number that it gave.
fn sweep(net: Net, roles: &[u8], links: &mut [u16], number: u16) -> ControlFlow<Node, u16>
    requires { SweepAsked net.numbers.inputs net.numbers.nodes net.fanins.now net.order.now roles.now links.old number }
    ensures swept_so { SweptSo net.entry.numbers.inputs net.entry.numbers.nodes net.entry.fanins.now roles.now number result links.new }
    ensures paths_kept { PathsKept net.entry.numbers.nodes links.old links.new }
{
    let nodes = net.numbers.nodes;
    let mut last = number;
    for i in 0..net.numbers.inputs {
        let v = Node { id: i as u16 };
        last = visit_input(nodes, roles, links, v, last);
        if is_reached(nodes, roles, links, v) {
            return ControlFlow::Break(v);
        }
    }
    for id in net.order {
        let v = Node { id: *id };
        last = visit_gate(net.numbers, net.fanins, roles, links, v, last);
        if is_reached(nodes, roles, links, v) {
            return ControlFlow::Break(v);
        }
    }
    ControlFlow::Continue(last)
}

// Sweeps until an end is reached or a sweep gives no number.
pub fn search(net: Net, roles: &[u8], links: &mut [u16]) -> Option<Node>
    requires { SearchAsked net.numbers.inputs net.numbers.nodes net.fanins.now net.order.now roles.now links.old }
    ensures sought_so { SoughtSo net.entry.numbers.inputs net.entry.numbers.nodes net.entry.fanins.now roles.now result links.new }
    ensures paths_kept { PathsKept net.entry.numbers.nodes links.old links.new }
{
    clear(links, net.numbers.nodes, Column::Ins, 2);
    let mut number: u16 = 0;
    // a sweep a turn: what it answers ends the search, or is where the next begins
    loop {
        match sweep(net, roles, links, number) {
            ControlFlow::Break(end) => return Some(end),
            ControlFlow::Continue(last) if last == number => return None,
            ControlFlow::Continue(last) => number = last,
        }
    }
}
