// The marks at the start of a sweep or of a search: a byte a node, 0 or 1.
ghost use Rattle.std.specs.Prelude.{◌≡◌, ◌++◌, ◌≤◌, length, drop, replicate};
ghost use Rattle.storage.specs.Entries.{cleared};

use storage::fill;

// Marks the inputs, and no gate.
pub fn start(marks: &mut [u8], inputs: usize, nodes: usize)
    requires inputs_le_nodes { inputs ≤ nodes }
    requires nodes_in_bounds { nodes ≤ length marks.old }
    ensures { marks.new ≡ replicate inputs 1 ++ drop inputs (cleared nodes marks.old) }
{
    fill(marks, nodes, 0);
    fill(marks, inputs, 1);
}
