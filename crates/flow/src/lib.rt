// The theory of drainage nets: what the papers say of counts and loops, over any net and any weight. It has no code; its laws serve every crate above.
#![tactic(auto)]
