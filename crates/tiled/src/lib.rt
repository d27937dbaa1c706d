// A sheet counted in tiles: records written, joined, and tiles finished give the counts of the whole sheet. Definitions and laws alone, no code.
#![tactic(auto)]
