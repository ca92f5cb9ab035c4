#![tactic(auto)]

// The demands, proved of the definitions: this crate holds no code, only its specs and proofs.
