// Demand 3: the rise from server A to server B, and what it gives for added entries, origins and the two editions of the AVX rule. Statements and
// proofs, no code.
#![tactic(auto)]
