// The demands once more, of the exported functions: no code. They are called in the crate `linked`.
#![tactic(auto)]
