// No code: each public function has one outcome for every input (C1, C2), and what a payload comes to where gossip is not
// taken (G2), as theorems in proofs/.
#![tactic(auto)]
