// The rules by which the readers are proved: definitions and laws only.
#![tactic(auto)]
