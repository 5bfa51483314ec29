// Page sets for examples, written entry by entry, and page bytes read in one pass, which gives what the definitions give. Definitions and laws, no
// code.
#![tactic(auto)]
