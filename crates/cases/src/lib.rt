// Document 01's worked cases: the table stands in specs/Cases.antt, its theorem in proofs/Table.antt.

#![tactic(auto)]
