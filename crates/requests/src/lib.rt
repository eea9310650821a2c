// "One request for each gap": this room holds definitions and proofs, no code.

#![tactic(auto)]
