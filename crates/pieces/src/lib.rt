// No code: a text parted at an octet, and put together again (L6 to L8, F1, F2 of SCOPE).
#![tactic(auto)]
