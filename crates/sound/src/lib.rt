// What a reading leaves is in range: laws about the definitions of crate grammar. No code.
#![tactic(auto)]
