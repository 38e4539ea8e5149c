// What the codec's parts say together (proofs/): what is written is read, and the worked cases. There is no code here.
#![tactic(auto)]
