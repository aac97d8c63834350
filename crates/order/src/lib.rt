// No code: the order of fetching does not matter (C11), as a theorem in proofs/.
#![tactic(auto)]
