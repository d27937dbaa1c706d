// The demands on this library, in the words of the paper and of those who use it, as theorems about the promises of its operations. No code stands here.
#![tactic(auto)]
