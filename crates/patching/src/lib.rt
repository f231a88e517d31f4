// What patching does to a sheet, in bytes: definitions and laws for the patch. No code.
#![tactic(auto)]
