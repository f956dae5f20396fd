// The laws of what is read back, of a header and of one row, stand in proofs/; there is no code here.
#![tactic(auto)]
