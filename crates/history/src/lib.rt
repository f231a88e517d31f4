// Specifications only: what annotating and patching mean, above reading (see specs/).
#![tactic(auto)]
