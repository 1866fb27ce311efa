// The starred values of document 01 stand in specs/ and proofs/; there is no code here.
#![tactic(auto)]
