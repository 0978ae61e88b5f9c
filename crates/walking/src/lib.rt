// Loops found, the order of the gates made, cones walked. Arrays in, arrays out; no bytes.
#![tactic(auto)]

mod cones;
mod gathering;
mod loops;
mod marking;
mod sweeping;

ghost use Rattle.storage.specs.Drawings.{net_in};
ghost use Rattle.walking.specs.Promises.{OrderRoom, OrderMade, WalkRoom, WalkMade, CutRuled};

use storage::lists::node_at;
use storage::roles::WALKED;
use storage::{Net, Node, Numbers, fill};

// Orders the gates by sweeps, fanins first, into the first entries of `order`; `Err` names the lowest gate that reaches itself. A drawing without a loop costs its sweeps alone:
// one where fanins have lower ids, as many as gates in a chain that is numbered backwards. Only where gates are left over is a
// loop looked for, back from each gate; `order` is its worklist, and is then cleared.
pub fn order_gates(
    numbers: Numbers,
    fanins: &[u16],
    order: &mut [u16],
    marks: &mut [u8],
) -> Result<(), Node>
    requires { OrderRoom numbers.inputs numbers.nodes fanins.now order.old marks.old }
    ensures { OrderMade (net_in numbers.inputs numbers.nodes fanins.now) order.old marks.old result
        order.new marks.new }
{
    let nodes = numbers.nodes;
    let gates = nodes - numbers.inputs;
    marking::start(marks, numbers.inputs, nodes);
    if sweeping::sweep_all(numbers, fanins, order, marks) == gates {
        fill(marks, nodes, 0);
        return Ok(());
    }
    let found = loops::lowest_loop(numbers, fanins, order, marks);
    fill(order, gates, 0);
    fill(marks, nodes, 0);
    Err(found.unwrap())
}

// Walks back from `root` and stops at the leaves, in one pass back along the order: the roles say which nodes are walked and which
// are met. With no leaves, the nodes met are those behind it.
pub fn walk(net: Net, root: Node, leaves: &[u16], roles: &mut [u8])
    requires { WalkRoom net.numbers.inputs net.numbers.nodes net.numbers.k.leaves net.fanins.now net.order.now root.id roles.old }
    ensures { WalkMade (net_in net.entry.numbers.inputs net.entry.numbers.nodes net.entry.fanins.now) leaves.now root.id
        roles.old roles.new }
{
    let inputs = net.numbers.inputs;
    let nodes = net.numbers.nodes;
    fill(roles, nodes, 0);
    let start = root.id as usize;
    roles[start] = WALKED;
    for i in (0..nodes - inputs).rev() {
        cones::pass(net.fanins, node_at(net.order, i), leaves, roles);
    }
}

// Is the list of leaves a cut of the gate, with at most K leaves? The roles are left as `walk` leaves them.
pub fn is_cut(net: Net, gate: Node, leaves: &[u16], roles: &mut [u8]) -> bool
    requires { WalkRoom net.numbers.inputs net.numbers.nodes net.numbers.k.leaves net.fanins.now net.order.now gate.id roles.old }
    ensures { CutRuled (net_in net.entry.numbers.inputs net.entry.numbers.nodes net.entry.fanins.now) net.entry.numbers.k.leaves leaves.now gate.id
        roles.old result roles.new }
{
    walk(net, gate, leaves, roles);
    if leaves.is_empty()
        || leaves.len() > net.numbers.k.leaves as usize
        || !cones::is_rising(leaves)
        || !cones::leaves_met(leaves, net.numbers.nodes, roles)
    {
        return false;
    }
    cones::inputs_stop(leaves, net.numbers.inputs, roles)
}
