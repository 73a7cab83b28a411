//! Road files and query files: lines that end with byte 10, fields that single spaces part.
#![tactic(auto)]

pub mod columns;
pub mod fault;
pub mod fields;
pub mod lines;
pub mod queries;
pub mod road_file;
pub mod roads;
mod rows;
pub mod tables;
pub mod values;

pub use fault::{FileFault, FileName, ReadFault};
pub use queries::{Question, read_queries};
pub use road_file::read_roads;
pub use tables::RoadTables;
