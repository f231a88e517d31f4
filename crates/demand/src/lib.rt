// Demand 3 as a whole: patching is annotating with the new file's own text. No code.
#![tactic(auto)]
