// No code: what is written is read back and kept (C6, C7, C8, C9), as theorems in proofs/.
#![tactic(auto)]
