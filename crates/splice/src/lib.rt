// The new file's reading when one cell is swapped: laws about the definitions of crate grammar. No code.
#![tactic(auto)]
