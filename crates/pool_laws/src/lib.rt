// Document 02, P12: what a pool's table is beside its servers' tables, and when each refusal is given. Statements and proofs, no code.
#![tactic(auto)]
