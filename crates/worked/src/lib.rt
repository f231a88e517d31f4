// Document 01's worked figures as one theorem. No code.
#![tactic(auto)]
