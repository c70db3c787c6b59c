// No code. specs/: what code computes from a header's bytes by index, and what it is given of a file: an index and its data.
// proofs/: that it is what the format defines, and each refusal 1 to 9 by index.
#![tactic(auto)]
