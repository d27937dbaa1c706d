// The sheets that paper 01 marks with a star: one table of data, under one proved statement about the definitions. It has no code.
#![tactic(auto)]
