// What each service answers, exactly when, as theorems over the definitions of the crates below. There is no code here.
#![tactic(auto)]
