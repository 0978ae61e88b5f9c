// A list of gates that grows in an array with marks beside it.
ghost use Rattle.std.specs.Prelude.{[]};
ghost use Rattle.walking.specs.Gathering.{AddRoom, Added};

use storage::Node;
use storage::lists::put_node;
use storage::marks::{is_marked, mark};

// Puts a node behind the others, unless it is marked, and answers how many there are.
pub fn add(list: &mut [u16], marks: &mut [u8], size: usize, node: Node) -> usize
    requires { AddRoom list.old marks.old size node.id }
    ensures { Added [] node.id list.old marks.old size list.new marks.new result }
{
    if is_marked(marks, node) {
        return size;
    }
    put_node(list, size, node);
    mark(marks, node);
    size + 1
}
