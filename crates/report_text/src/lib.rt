//! The lines and texts that are printed, defined.
//!
//! A text is a list of bytes, each line of it ended by a line feed. Revisions, signatures, flags, ids and families stand in
//! it as `0x` and eight hexadecimal digits, the bytes of an entry as hexadecimal digits, and other numbers in decimal.
//! `specs/` has single lines (`Lines`), the list of files and their entries (`Listing`), an entry with its bytes (`Show`)
//! and what each core is offered (`Offers`).
#![tactic(auto)]
