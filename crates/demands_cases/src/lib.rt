// Sessions of clients with two passwords, computed by the definition: what demand 3 is about, and why its premise is needed (proofs/).
// There is no code here; it stands apart from `demands` because it takes longer to compute than all of that to check.
#![tactic(auto)]
