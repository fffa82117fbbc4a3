// The archive for C and Rust: each function of `c_api`, exported under the same name, with the same clauses. include/residual.h and include/picture.h declare them for C.
// Kept: a crate is a library or an archive, not both, so that each function of c_api has an export of its own here, with its parameters and clauses again.
#![tactic(auto)]

mod edits;
mod feeds;
mod levels;
mod lists;
mod pictures;
mod quantities;
mod searches;
mod tables;
mod tools;
mod transforms;
mod version;
