// A sheet's slots and its bytes. No code: the annotator and the patch speak of these definitions and laws.
#![tactic(auto)]
