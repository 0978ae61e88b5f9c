// What lies in slices that a caller lends: lists of ids, marks, and numbers in columns; and the words that keep node, label and cut size apart.
#![tactic(auto)]

pub mod columns;
pub mod lists;
pub mod marks;
pub mod roles;

ghost use Rattle.std.specs.Prelude.{◌≡◌, ◌++◌, ◌≤◌, length, drop, replicate};

// Document 01 names a label, a node cut_size and a node separately: three types, so that none can stand for another.
#[derive(Clone, Copy, PartialEq, Eq)]
pub struct Node {
    pub id: u16,
}

#[derive(Clone, Copy, PartialEq, Eq, PartialOrd, Ord)]
pub struct Label {
    pub depth: u16,
}

#[derive(Clone, Copy)]
pub struct CutSize {
    pub leaves: u8,
}

// The numbers of a drawing: K, the inputs, all nodes, and how many roots a cover has to reach.
#[derive(Clone, Copy)]
pub struct Numbers {
    pub k: CutSize,
    pub inputs: usize,
    pub nodes: usize,
    pub roots: usize,
}

// A drawing's net as arrays hold it: its numbers, the fanins of each node, and an order of its gates, fanins first.
#[derive(Clone, Copy)]
pub struct Net<'a> {
    pub numbers: Numbers,
    pub fanins: &'a [u16],
    pub order: &'a [u16],
}

// The first `size` entries become `value`. (std's `entries[..size].fill(value)` tells of each entry of the part: callers here need one equation of the whole.)
pub fn fill<T: Copy>(entries: &mut [T], size: usize, value: T)
    requires { size ≤ length entries.old }
    ensures { entries.new ≡ replicate size value ++ drop size entries.old }
{
    for i in 0..size {
        entries[i] = value;
    }
}
