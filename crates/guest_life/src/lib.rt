// What holds of a guest over its life: what its view tells of the table, where its save areas lie, and what stays along moves and carries. Statements
// and proofs, no code.
#![tactic(auto)]
