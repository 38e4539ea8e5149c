// Laws on lists that several crates' proofs cite (proofs/). There is no code here.
#![tactic(auto)]
