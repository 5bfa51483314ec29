// Demand 1: each answer of building comes under exactly its condition, and each refusal has its line. Statements and proofs, no code.
#![tactic(auto)]
