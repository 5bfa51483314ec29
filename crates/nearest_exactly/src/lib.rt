// Document 02, P13: what each answer of the nearest bit is given for, and where it is 20. Statements and proofs, no code.
#![tactic(auto)]
