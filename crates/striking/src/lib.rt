// What striking leaves of a message, and what a table must be for demand 3: definitions and laws, no code.
#![tactic(auto)]
