// Laws about the definitions of crate grammar: no code.
#![tactic(auto)]
