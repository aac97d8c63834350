// No code: what `lint` lists are the faults that are there, and what we write has none (C22, C23, C24), as theorems in proofs/.
#![tactic(auto)]
