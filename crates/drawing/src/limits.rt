// The limits of document 01, and the sizes of a gate table's fields. No other file of the crate has their digits.
use storage::lists::PLACES;

// "K is 2 to 6. Inputs I: 1 to 64. .. n = I + G at most 192. Outputs: 1 to 64."
pub const LEAST_K: usize = 2;

pub const MOST_K: usize = 6;

pub const LEAST_INPUTS: usize = 1;

pub const MOST_INPUTS: usize = 64;

pub const LEAST_NODES: usize = LEAST_INPUTS;

pub const MOST_NODES: usize = 192;

pub const MOST_OUTPUTS: usize = 64;

// The places that the fanins of the largest table take.
pub const MOST_PLACES: usize = PLACES * MOST_NODES;

// The tags, and the version.
pub const HEAD: usize = 1;

pub const GATE: usize = 2;

pub const OUTPUT: usize = 3;

pub const VERSION: usize = 1;

// Bytes: a field's length, and its tag and length.
pub const LENGTH_SIZE: usize = 2;

pub const FRAME: usize = 1 + LENGTH_SIZE;

// Where a head has its version, K, I and G.
pub const VERSION_AT: usize = FRAME;

pub const K_AT: usize = FRAME + 1;

pub const INPUTS_AT: usize = FRAME + 2;

pub const GATES_AT: usize = FRAME + 3;

// Bytes: a head's value, an id, a function table, and a gate's value but for its fanins.
pub const HEAD_SIZE: usize = 4;

pub const ID_SIZE: usize = 1;

pub const ROWS_SIZE: usize = 8;

pub const NO_FANINS: usize = 1 + ROWS_SIZE;
