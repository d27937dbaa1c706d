// The vocabulary of promises: replies, refusals in order, and what a search answers. It has no code.
#![tactic(auto)]
