// A duplicate and its two times: this room holds definitions and proofs, no code.
#![tactic(auto)]
