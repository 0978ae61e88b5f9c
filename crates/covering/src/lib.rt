// From cuts to lookup tables: each cone's function, and the LUTs that the outputs need.
#![tactic(auto)]

pub mod cones;
pub mod covers;
