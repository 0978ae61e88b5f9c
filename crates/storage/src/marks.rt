// Marks and labels: an entry a node.
ghost use Rattle.std.specs.Prelude.{◌≡◌, ◌++◌, max, suc, ◌≤◌, ◌<◌, length, get_or, set, drop, replicate};
ghost use Rattle.storage.specs.Marks.{Tells};
ghost use Rattle.storage.specs.Entries.{cleared};

use crate::{Label, Node};

pub fn is_marked(marks: &[u8], node: Node) -> bool
    requires { node.id < length marks.now }
    ensures { Tells (get_or marks.now node.id 0 ≡ 1) result }
{
    let v = node.id as usize;
    marks[v] == 1
}

pub fn mark(marks: &mut [u8], node: Node)
    requires { node.id < length marks.old }
    ensures { marks.new ≡ set marks.old node.id 1 }
{
    let v = node.id as usize;
    marks[v] = 1;
}

// `storage::fill`, of marks.
pub fn fill(marks: &mut [u8], size: usize, value: u8)
    requires { size ≤ length marks.old }
    ensures { marks.new ≡ replicate size value ++ drop size marks.old }
{
    crate::fill(marks, size, value);
}

pub fn clear(marks: &mut [u8], size: usize)
    requires { size ≤ length marks.old }
    ensures { marks.new ≡ cleared size marks.old }
{
    crate::fill(marks, size, 0);
}

pub fn label_of(labels: &[u16], node: Node) -> Label
    requires { node.id < length labels.now }
    ensures { result.depth ≡ get_or labels.now node.id 0 }
{
    let v = node.id as usize;
    Label { depth: labels[v] }
}

pub fn put_label(labels: &mut [u16], node: Node, label: Label)
    requires { node.id < length labels.old }
    ensures { labels.new ≡ set labels.old node.id label.depth }
{
    let v = node.id as usize;
    labels[v] = label.depth;
}

pub fn larger(a: Label, b: Label) -> Label
    ensures { result.depth ≡ max a.depth b.depth }
{
    a.max(b)
}

// The label of a gate one above.
pub fn above(label: Label) -> Label
    requires { suc label.depth < 65536 }
    ensures { result.depth ≡ suc label.depth }
{
    Label {
        depth: label.depth + 1,
    }
}
