// No code: programs that the promises rule out.
#![tactic(auto)]
