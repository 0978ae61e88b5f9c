// What stage one of the mapper leaves in arrays, as the settled sheet of a table: definitions in specs/, theorems in proofs/. The mapper and the
// lister stand on it.
#![tactic(auto)]

use drawing::limits::MOST_NODES;

// The links of the largest drawing in five columns, and its words in two.
pub const MOST_LINKS: usize = 5 * MOST_NODES;

pub const MOST_WORDS: usize = 2 * MOST_NODES;
