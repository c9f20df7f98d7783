// Plain logic that every other crate may use: definitions in specs/, their laws in proofs/, no code.
#![tactic(auto)]
