// The theory of the list as rows alone: no code, and no type of the code; notions and their laws, all in proofs/.
#![tactic(auto)]
