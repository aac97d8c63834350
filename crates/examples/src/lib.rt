// No code: the examples of C14 hold, as a theorem in proofs/.
#![tactic(auto)]
