// Laws of accepted messages and of faults: no code.
#![tactic(auto)]
