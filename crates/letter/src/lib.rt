// Document 01 line by line, in its own figures: the table, the checks, the image, the lookup and the program's bytes written out once more, and that
// the definitions give the same. Statements and proofs, no code.
#![tactic(auto)]
