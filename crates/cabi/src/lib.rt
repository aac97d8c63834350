// The C interface, as include/vienghulac.h declares it: each function of that name hands its arguments to the function of the
// library that its comment names, and puts the answer into numbers. The crate cexports has these functions under their C names.
#![tactic(auto)]

pub mod linting; // vienghulac_lint
pub mod messages; // vienghulac_process
pub mod numbers; // answers in numbers
pub mod recommending; // vienghulac_recommend, vienghulac_target_key
pub mod tables; // vienghulac_check, vienghulac_entry
pub mod writing; // vienghulac_write_autocrypt, vienghulac_write_gossip
