// No code: the table of refusals is in specs/Table.antt, and its theorem in proofs/Right.antt.
#![tactic(auto)]
