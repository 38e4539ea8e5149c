// What the client's definition is shown to mean (proofs/): the worked cases, and what is easily missed. There is no code here.
#![tactic(auto)]
