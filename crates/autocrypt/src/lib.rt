// The library as its callers see it. Each name stands here for the crate that it comes from, where a comment says what it
// does.
//     check, entry                             look at a table (T13, T14)
//     convert                                  bring a table of an older version to the addresses of this one (T16)
//     process, Gossip                          take in a received mail (U1), with the gossip setting (G1)
//     recommend, recommend_quick               advice for a mail to be sent (A1), and how many were looked up (A12)
//     target_key, target_part                  the keys to encrypt to (A6)
//     write_autocrypt, write_gossip            write a field for a mail to be sent (W1)
//     display                                  an address as it is shown (W11)
//     lint                                     what is wrong with the fields of a mail to be sent (O1)
//     Quick                                    the answer of recommend_quick, with its count (A13)
//     Advice, Part                             an advice (A1), and a part of a table (A6)
//     Refusal, number, index                   the error of every call: why it refuses, its number, and the index that comes with
//                                              2 (R33)
//
// Everything is done in memory that the caller lends; no call keeps anything, and none requires anything of its arguments
// (C1). What each answers, and leaves in lent memory, is fixed for every input (C2), and a refused call writes nothing
// (R32).
#![tactic(auto)]

pub use advice::{Advice, Part};
pub use convert::convert;
pub use display::display;
pub use inspect::{check, entry};
pub use lint::lint;
pub use process::process;
pub use recommend::{Quick, recommend, recommend_quick, target_key, target_part};
pub use refusals::{Refusal, index, number};
pub use settings::Gossip;
pub use write::{write_autocrypt, write_gossip};
