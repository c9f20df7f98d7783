// The examples of document 01 in one table, computed by the checker: no code.
#![tactic(auto)]
