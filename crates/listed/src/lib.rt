// What is written of a whole recording, and that it is the same however the file is cut: definitions and proofs, no code.
#![tactic(auto)]
