// Laws of the sheet's form, in specs/: no code.
#![tactic(auto)]
