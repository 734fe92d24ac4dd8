// Definitions in specs/, theorems in proofs/: this crate has no code.
#![tactic(auto)]
