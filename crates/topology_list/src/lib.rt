// Document 02, P14: what is asked of the list of topologies, that one list alone has it, and that building accepts what is listed. Statements and
// proofs, no code.
#![tactic(auto)]
