// The marked batches, C1 to C10 of document 01 and rows of our own: one table in specs/ and the theorem that the definitions give every row. It has no code.
#![tactic(auto)]
