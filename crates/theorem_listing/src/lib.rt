// No code: the listing of a published case.
#![tactic(auto)]
