// Tiles: the tile that a grid is, its border cells, numbered in order of place, and the way of a border cell, with what a record holds of it. (Where the
// water of their cells leaves them is defined in specs/Way.antt; crate tile_ways finds it.)
#![tactic(auto)]

pub mod border;
pub mod shape;
pub mod way;
