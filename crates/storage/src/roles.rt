// What a node is to the gate at hand: a byte a node, with one meaning to a value. A walk leaves away, walked, met or both; the
// marking of an area turns these into away, deep, area or end; a path that is checked takes nodes of the area.
// Numbers and no enum: the same lent bytes are plain marks before and after (fixed memory), and `WalkMade` and `AreaMarked` speak of lists of numbers.
ghost use Rattle.std.specs.Prelude.{◌≡◌, ◌<◌, eqb, length, get_or};
ghost use Rattle.storage.specs.Marks.{Tells};
ghost use Rattle.storage.specs.Roles.{met_bit, walked_in, met_in, area_in, ends_in};

use crate::Node;

pub const AWAY: u8 = 0;

pub const WALKED: u8 = 1;

pub const MET: u8 = 2;

pub const BOTH: u8 = 3;

pub const DEEP: u8 = 4;

pub const AREA: u8 = 5;

pub const END: u8 = 6;

pub const TAKEN: u8 = 7;

pub const TAKEN_END: u8 = 8;

#[tactic(auto, unfolding(crate::specs::Roles::walked_bit))]
pub fn is_walked(roles: &[u8], node: Node) -> bool
    requires { node.id < length roles.now }
    ensures { Tells (get_or (walked_in roles.now) node.id 0 ≡ 1) result }
{
    let v = node.id as usize;
    matches!(roles[v], WALKED | BOTH)
}

// Is this the role of a node that a walk has met?
#[tactic(auto, unfolding(crate::specs::Roles::met_bit))]
pub fn says_met(role: u8) -> bool
    ensures { Tells (met_bit role ≡ 1) result }
{
    matches!(role, MET | BOTH)
}

pub fn is_met(roles: &[u8], node: Node) -> bool
    requires { node.id < length roles.now }
    ensures { Tells (get_or (met_in roles.now) node.id 0 ≡ 1) result }
{
    let v = node.id as usize;
    says_met(roles[v])
}

// May a path pass the node: does it lie in the area, and has no path taken it?
#[tactic(auto, unfolding(crate::specs::Roles::area_bit))]
pub fn is_free(roles: &[u8], node: Node) -> bool
    requires { node.id < length roles.now }
    ensures { result ≡ eqb (get_or (area_in roles.now) node.id 0) 1 }
{
    let v = node.id as usize;
    matches!(roles[v], AREA | END)
}

// May a path end at the node? An end that is taken stays an end.
#[tactic(auto, unfolding(crate::specs::Roles::end_bit))]
pub fn is_end(roles: &[u8], node: Node) -> bool
    requires { node.id < length roles.now }
    ensures { result ≡ eqb (get_or (ends_in roles.now) node.id 0) 1 }
{
    let v = node.id as usize;
    matches!(roles[v], END | TAKEN_END)
}
