// The limits of document 01 that a sheet keeps, the tags of its fields and their sizes.
use drawing::limits::VERSION_AT;

// "The sheet buffer has at least 49,152 bytes"
pub const SHEET_ROOM: usize = 49152;

// "depth above 191", "label not 1 to 191"
pub const MOST_DEPTH: u16 = 191;

// "Tag 16, head", "Tag 17, for each gate", "Tag 18, for each LUT"
pub const HEAD: u8 = 16;

pub const LINE: u8 = 17;

pub const LUT: u8 = 18;

// Bytes: the version, and how many leaves or paths there are.
pub const VERSION_SIZE: usize = 1;

pub const COUNT_SIZE: usize = 1;

// Where a head has its depth. The LUT count stands behind it.
pub const DEPTH_AT: usize = VERSION_AT + VERSION_SIZE;
