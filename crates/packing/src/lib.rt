// Stage one of the mapper: a drawing's labels, the mapper's cuts, the LUTs that its outputs need and their tables, all in lent arrays.
#![tactic(auto)]

ghost use Rattle.packing.specs.Tables.{TableAsked, TableAnswered, TablesAsked, TablesMade, made_of, MapAsked, MappingMade};

use covering::cones::cone_table;
use covering::covers::{cover, depth};
use labelling::label_gates;
use storage::lists::list_at;
use storage::{Label, Net, Node, fill};

// How many LUTs there are, and how deep they are.
#[derive(Clone, Copy)]
pub struct Mapping {
    pub luts: usize,
    pub depth: Label,
}

// The table of a root's cone; of any other node 0. The cone's values are worked out in the first `nodes` words, which are 0 and left so.
fn table_of(net: Net, rows: &[u64], gate: Node, cuts: &[u16], luts: &[u8], words: &mut [u64]) -> u64
    requires { TableAsked net.numbers.inputs net.numbers.nodes net.numbers.k.leaves net.fanins.now rows.now net.order.now gate.id
        cuts.now luts.now words.old }
    ensures { TableAnswered net.entry.numbers.inputs net.entry.numbers.nodes net.entry.fanins.now rows.now cuts.now
        luts.now gate.id words.old result words.new }
{
    let v = gate.id as usize;
    if luts[v] != 1 {
        return 0;
    }
    cone_table(net, rows, gate, list_at(cuts, gate), words)
}

// The tables of all nodes, behind the words for a cone's values.
fn store_tables(net: Net, rows: &[u64], cuts: &[u16], luts: &[u8], words: &mut [u64])
    requires { TablesAsked net.numbers.inputs net.numbers.nodes net.numbers.k.leaves net.fanins.now rows.now net.order.now cuts.now
        luts.now words.old }
    ensures { TablesMade net.entry.numbers.inputs net.entry.numbers.nodes net.entry.fanins.now rows.now cuts.now
        luts.now words.old words.new }
{
    let nodes = net.numbers.nodes;
    fill(words, nodes, 0);
    for v in 0..nodes {
        let gate = Node { id: v as u16 };
        let table = table_of(net, rows, gate, cuts, luts, words);
        words[nodes + v] = table;
    }
}

// Labels and cuts of all gates, the roots that the outputs need, and each root's table. The roles, the links and the first `nodes` words are
// scratch, and left 0.
pub fn map_gates(
    net: Net,
    rows: &[u64],
    outputs: &[u16],
    labels: &mut [u16],
    cuts: &mut [u16],
    roles: &mut [u8],
    links: &mut [u16],
    luts: &mut [u8],
    words: &mut [u64],
) -> Mapping
    requires { MapAsked net.numbers.inputs net.numbers.nodes net.numbers.k.leaves net.fanins.now rows.now net.order.now outputs.now
        net.numbers.roots (made_of labels.old cuts.old luts.old words.old) roles.old links.old }
    ensures { MappingMade net.entry.numbers.inputs net.entry.numbers.nodes net.entry.numbers.k.leaves net.entry.fanins.now rows.now
        outputs.now net.entry.numbers.roots (made_of labels.old cuts.old luts.old words.old)
        roles.old links.old result (made_of labels.new cuts.new luts.new words.new)
        roles.new links.new }
{
    label_gates(net, labels, cuts, roles, links);
    let many = cover(net.numbers, net.order, cuts, outputs, luts);
    store_tables(net, rows, cuts, luts, words);
    let deepest = depth(labels, &outputs[..net.numbers.roots]);
    Mapping {
        luts: many,
        depth: deepest,
    }
}
