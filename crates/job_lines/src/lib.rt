//! Lines of a job list, each read by itself: what a job line says, and the name in the header of a program.
#![tactic(auto)]

mod code;
mod declaration;
mod extent;
mod header;
mod length;
mod limits;
mod numbers;
mod option_lines;
mod tool_lines;

pub use code::Code;
pub use declaration::{AxisName, Declaration, NamedSide, NamedZone, ZoneHead, declaration_in};
pub use extent::{
    Extent, FIRST_VERSION, FIRST_VERSION_AXES, FIRST_VERSION_CHANNELS, FIRST_VERSION_MARKS,
};
pub use header::header_in;
pub use limits::{
    BUDGET_LIMIT, DEPTH_LIMIT, EDGE_LIMIT, INPUT_LIMIT, MARGIN_LIMIT, PROGRAM_LIMIT, TOOL_LIMIT,
};
pub use tool_lines::GivenEdge;
