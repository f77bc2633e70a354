// What may be written, and that it reads back as what it is: laws over the definitions of the crates below. There is no code here.
#![tactic(auto)]
