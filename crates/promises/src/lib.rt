// The front page of the proofs: specs alone.
#![tactic(auto)]
