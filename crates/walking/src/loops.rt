// Loops: whether a gate reaches itself along fanins is found by a search back from it.
ghost use Rattle.std.specs.Prelude.{◌≤◌, ◌<◌, take};
ghost use Rattle.storage.specs.Lists.{list_at};
ghost use Rattle.walking.specs.Gathering.{Listing, Listed, noted_all};
ghost use Rattle.walking.specs.Promises.{OrderRoom};
ghost use Rattle.walking.specs.Searching.{Searched, LowestFound};

use crate::gathering::add;
use crate::marking::start;
use storage::lists::{list_at, node_at};
use storage::marks::is_marked;
use storage::{Node, Numbers};

// Lists the gate's fanins that are not marked yet. (`numbers` say which net it is: the code does without.)
fn note_fanins(
    numbers: Numbers,
    fanins: &[u16],
    list: &mut [u16],
    marks: &mut [u8],
    size: usize,
    gate: Node,
) -> usize
    requires listing { Listing numbers.inputs numbers.nodes fanins.now list.old marks.old size }
    requires id_lt_nodes { gate.id < numbers.nodes }
    ensures { Listed numbers.inputs numbers.nodes fanins.now list.old marks.old list.new marks.new result
        (noted_all numbers.inputs (take size list.old) (list_at fanins.now gate.id)) }
{
    let mut listed = size;
    for id in list_at(fanins, gate) {
        listed = add(list, marks, listed, Node { id: *id });
    }
    listed
}

// Does the gate reach itself along fanins? Linear in the edges behind it.
fn reaches_itself(
    numbers: Numbers,
    fanins: &[u16],
    list: &mut [u16],
    marks: &mut [u8],
    gate: Node,
) -> bool
    requires order_room { OrderRoom numbers.inputs numbers.nodes fanins.now list.old marks.old }
    requires inputs_le_id { numbers.inputs ≤ gate.id }
    requires id_lt_nodes { gate.id < numbers.nodes }
    ensures { Searched numbers.inputs numbers.nodes fanins.now list.old marks.old gate.id result
        list.new marks.new }
{
    start(marks, numbers.inputs, numbers.nodes);
    let mut size = note_fanins(numbers, fanins, list, marks, 0, gate);
    let mut done = 0;
    // the list grows while it is walked, so its end is no range to go over
    while done < size {
        let next = node_at(list, done);
        size = note_fanins(numbers, fanins, list, marks, size, next);
        done += 1;
    }
    is_marked(marks, gate)
}

// The lowest gate that reaches itself, if there is one.
pub fn lowest_loop(
    numbers: Numbers,
    fanins: &[u16],
    list: &mut [u16],
    marks: &mut [u8],
) -> Option<Node>
    requires { OrderRoom numbers.inputs numbers.nodes fanins.now list.old marks.old }
    ensures { LowestFound numbers.inputs numbers.nodes fanins.now list.old marks.old result
        list.new marks.new }
{
    for v in numbers.inputs..numbers.nodes {
        let gate = Node { id: v as u16 };
        if reaches_itself(numbers, fanins, list, marks, gate) {
            return Some(gate);
        }
    }
    None
}
