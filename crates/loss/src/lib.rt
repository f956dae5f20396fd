// The theorems over one pixel stand in specs/ and proofs/; there is no code here.
#![tactic(auto)]
