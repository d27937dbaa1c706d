// The theory of mosaics: a sheet cut by full rows and columns into tiles, what joining counts on, and the tiled theorem over the definitions. It has no code; its laws serve the crates that join.
#![tactic(auto)]
