// Sheets as paper 01 describes them: shapes, the compass table, where water goes, and what is gathered over a sheet.
#![tactic(auto)]

pub mod compass;
pub mod grid;
pub mod shape;
pub mod step;
pub mod totals;
