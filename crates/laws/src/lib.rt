// The laws over the definitions of `model` that code and theorems cite: specs/ has what they speak of, proofs/ proves them. No
// code.
#![tactic(auto)]
