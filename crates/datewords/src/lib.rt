// The words of a Date (SCOPE, D3 to D12): its tokens, and what each means at the place where it stands.
#![tactic(auto)]

pub mod meaning; // what a token means at each place of a date
pub mod token; // the tokens of a date
