// What a text's cells do to a sheet, in bytes: definitions and laws for the annotator and the patch. No code.
#![tactic(auto)]

// What stands below, for the crates above.
pub use amounts;
pub use sheet;
