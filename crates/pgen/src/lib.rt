// The public library: its calls, each from the crate where its code and its contract stand. None has a `requires`.
#![tactic(auto)]

// 01, Replies: "the header check and the whole-file check give mode, M, N and the form byte (0 for each on a refusal)"
pub use call_read::check;
pub use head_check::check as header_check;

// 01: "A read changes the output's first N bytes and no others." "a lookup gives the category (0 on a refusal)"
pub use call_read::{lookup, read};

// 02, Ask 1: "A new reading fills N bytes: 0 unphased, 1 unswapped, 2 swapped."
pub use call_read::read_phases;

// 01: "hands back the bytes of one record as a part of the caller's file"
pub use call_read::view;

// 01: "The writer takes categories, a kind, a pair code (0 unless kind 1), an anchor's categories (empty unless kind 2 or 3) and an output."
pub use call_write::write_record;

// 02, Ask 1: "Add a writer, which stores presence bits only if a call is unphased".
pub use call_write::phased::write_phased_record;

// 01, Flipping: "The set has bit v for variant v."
pub use call_flip::flip;

// A file read variant by variant for one header check: a state that a start gives, and each step's reply with the state moved on. Its
// phases too, where they are wanted.
pub use call_rows::{next_phased_row, next_row, start_rows};
