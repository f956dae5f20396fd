// The theorems over the reader and the writer together stand in specs/ and proofs/; there is no code here.
#![tactic(auto)]
