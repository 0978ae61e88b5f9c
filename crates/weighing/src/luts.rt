// Pass three: "25, 29 on each LUT", roots rising.
ghost use Rattle.weighing.specs.PassThree.{LutsAsked, LutsAnswered, FirstJudged, NodeAsked, NodeJudged, CutAsked, CutTold, FunctionAsked, FunctionTold};

use covering::cones::cone_table;
use storage::lists::list_at;
use storage::{Net, Node, fill};
use walking::is_cut;

// The rule of a LUT that is broken, 25 or 29, with its root.
#[derive(Clone, Copy)]
pub enum LutFault {
    Cut(Node),
    Function(Node),
}

// 25: are the leaves listed for the root a cut of it?
fn leaves_cut(net: Net, root: Node, cuts: &[u16], roles: &mut [u8]) -> bool
    requires { CutAsked net.numbers.inputs net.numbers.nodes net.numbers.k.leaves net.fanins.now net.order.now cuts.now roles.old
        root.id }
    ensures { CutTold net.entry.numbers.inputs net.entry.numbers.nodes net.entry.numbers.k.leaves net.entry.fanins.now cuts.now root.id
        roles.old result roles.new }
{
    is_cut(net, root, list_at(cuts, root), roles)
}

// 29: is the table listed for the root that of its cone? A cone's table has no bit above its rows.
fn table_right(
    net: Net,
    rows: &[u64],
    root: Node,
    cuts: &[u16],
    tables: &[u64],
    values: &mut [u64],
) -> bool
    requires { FunctionAsked net.numbers.inputs net.numbers.nodes net.numbers.k.leaves net.fanins.now rows.now net.order.now cuts.now
        tables.now values.old root.id }
    ensures { FunctionTold net.entry.numbers.inputs net.entry.numbers.nodes net.entry.fanins.now rows.now cuts.now
        tables.now root.id values.old result values.new }
{
    let table = cone_table(net, rows, root, list_at(cuts, root), values);
    table == tables[root.id as usize]
}

// The rules of the LUT at a node, if there is one.
fn judge_node(
    net: Net,
    rows: &[u64],
    luts: &[u8],
    cuts: &[u16],
    tables: &[u64],
    node: Node,
    roles: &mut [u8],
    values: &mut [u64],
) -> Result<(), LutFault>
    requires { NodeAsked net.numbers.inputs net.numbers.nodes net.numbers.k.leaves net.fanins.now rows.now net.order.now luts.now cuts.now
        tables.now roles.old values.old node.id }
    ensures { NodeJudged net.entry.numbers.inputs net.entry.numbers.nodes net.entry.numbers.k.leaves net.entry.fanins.now rows.now
        luts.now cuts.now tables.now node.id roles.old values.old result
        roles.new values.new }
{
    let v = node.id as usize;
    if luts[v] != 1 {
        return Ok(());
    }
    if !leaves_cut(net, node, cuts, roles) {
        return Err(LutFault::Cut(node));
    }
    if !table_right(net, rows, node, cuts, tables, values) {
        return Err(LutFault::Function(node));
    }
    Ok(())
}

// The nodes in turn, up to the first rule that is broken.
fn judge_nodes(
    net: Net,
    rows: &[u64],
    luts: &[u8],
    cuts: &[u16],
    tables: &[u64],
    roles: &mut [u8],
    values: &mut [u64],
) -> Result<(), LutFault>
    requires { LutsAsked net.numbers.inputs net.numbers.nodes net.numbers.k.leaves net.fanins.now rows.now net.order.now luts.now cuts.now
        tables.now roles.old values.old }
    ensures { FirstJudged net.entry.numbers.inputs net.entry.numbers.nodes net.entry.numbers.k.leaves net.entry.fanins.now rows.now
        luts.now cuts.now tables.now roles.old values.old result roles.new
        values.new }
{
    for v in net.numbers.inputs..net.numbers.nodes {
        let node = Node { id: v as u16 };
        judge_node(net, rows, luts, cuts, tables, node, roles, values)?;
    }
    Ok(())
}

// Pass three over the LUTs that the arrays hold. The scratch is left 0: a role a node for the walk, and a word a node for the cones' values.
pub fn judge_luts(
    net: Net,
    rows: &[u64],
    luts: &[u8],
    cuts: &[u16],
    tables: &[u64],
    roles: &mut [u8],
    values: &mut [u64],
) -> Result<(), LutFault>
    requires { LutsAsked net.numbers.inputs net.numbers.nodes net.numbers.k.leaves net.fanins.now rows.now net.order.now luts.now cuts.now
        tables.now roles.old values.old }
    ensures { LutsAnswered net.entry.numbers.inputs net.entry.numbers.nodes net.entry.numbers.k.leaves net.entry.fanins.now rows.now
        luts.now cuts.now tables.now roles.old values.old result roles.new
        values.new }
{
    let nodes = net.numbers.nodes;
    let found = judge_nodes(net, rows, luts, cuts, tables, roles, values);
    fill(roles, nodes, 0);
    fill(values, nodes, 0);
    found
}
