// The three demands as statements with their proofs: no code. What they speak of is called in the crate `called`.
#![tactic(auto)]
