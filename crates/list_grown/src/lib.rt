// What holds of every list that calls and moves have grown from a fresh set-up: no code; the statements are in specs/,
// their proofs in proofs/.
#![tactic(auto)]
