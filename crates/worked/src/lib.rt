// 01's worked messages and other hard cases, tried on the definitions.
#![tactic(auto)]
