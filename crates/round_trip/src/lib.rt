// Document 02, P2: a list for KVM, read and built again, gives the same table, and when reading refuses. Statements and proofs, no code.
#![tactic(auto)]
