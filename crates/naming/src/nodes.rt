// The node that a name or an operand stands for.
ghost use Rattle.std.specs.Prelude.{◌≡◌, ◌+◌, ◌*◌, ◌≤◌, length};
ghost use Rattle.grammar.specs.paper.Text.{most_text};
ghost use Rattle.naming.specs.Stored.{node_named, operand_node};

use crate::Equations;
use crate::arrays::place_at;
use crate::words::same_word;
use spelling::MOST_TEXT;
use storage::Node;
use storage::lists::node_at;

// The node of the first definition that has the word at `place`.
pub fn node_of(equations: Equations, place: usize) -> Node
    ensures { result.id ≡ node_named equations.entry.text.now equations.entry.names.now equations.entry.counts.definitions place }
{
    for i in 0..equations.counts.definitions {
        if same_word(equations.text, place_at(equations.names, i), place) {
            return node_at(equations.names, 2 * i + 1);
        }
    }
    Node { id: 0 }
}

// The node that is an operand of a gate.
pub fn operand_node(equations: Equations, operand: usize) -> Node
    requires { equations.counts.inputs + operand ≤ most_text + 32767 }
    ensures { result.id ≡ operand_node
        (node_named equations.entry.text.now equations.entry.names.now equations.entry.counts.definitions)
        equations.entry.counts.inputs operand }
{
    if operand < MOST_TEXT {
        return node_of(equations, operand);
    }
    Node {
        id: (equations.counts.inputs + (operand - MOST_TEXT)) as u16,
    }
}
