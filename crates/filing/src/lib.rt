// The theory of filing records: definitions in specs/, theorems in proofs/. No code, and the node limit is the letter N throughout.
#![tactic(auto)]
