// Every headline statement, a page in specs/ for each promise, which specs/Theorems.antt lists. Statements and proofs, no code.
#![tactic(auto)]
