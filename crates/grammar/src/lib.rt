// What a schedule is and how it is written, and that a text passes exactly if it is written so:
// no code; statements in specs/, proofs in proofs/.
#![tactic(auto)]
