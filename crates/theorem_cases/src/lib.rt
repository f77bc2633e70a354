// No code: the P cases are statements about the definitions of `crates/segment`.
#![tactic(auto)]
