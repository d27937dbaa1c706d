// The tiles of a mosaic by their records, and the border cell of the mosaic that an exit steps onto.
#![tactic(auto)]

mod line;
mod onto;
pub mod records;
pub mod table;
pub mod tiles;
