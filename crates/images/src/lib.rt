// What images tell of tables: equal images are of equal tables, an image is read back, a carried table is that of edition 2, and one fingerprint
// means equal tables or a collision of SHA-256. Statements and proofs, no code.
#![tactic(auto)]
