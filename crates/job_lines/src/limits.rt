//! How much an input may have, and how far its options go.

/// How many bytes an input may have.
pub const INPUT_LIMIT: usize = 8_388_608;

/// How many programs an input may have.
pub const PROGRAM_LIMIT: usize = 256;

/// The greatest margin, in micrometres.
pub const MARGIN_LIMIT: i32 = 1_000_000;

/// The greatest depth.
pub const DEPTH_LIMIT: u8 = 4;

/// The greatest budget. The least is 1.
pub const BUDGET_LIMIT: u32 = 100_000_000;

/// The greatest number of a tool.
pub const TOOL_LIMIT: u16 = 9_999;

/// The greatest number of an edge of a tool.
pub const EDGE_LIMIT: u8 = 9;
