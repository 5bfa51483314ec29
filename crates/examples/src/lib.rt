// Page sets by computation: instances that meet the hypotheses of the theorems, with figures. Statements and proofs, no code.
#![tactic(auto)]
