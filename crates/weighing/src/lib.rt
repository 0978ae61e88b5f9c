// Passes three and four of the inspector: the LUTs of a sheet, and the whole.
#![tactic(auto)]

pub mod luts;
pub mod whole;
