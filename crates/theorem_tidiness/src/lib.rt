// Tidy as a property of a file: an accepted segment is its own tidy form exactly when it has it. There is no code here.
#![tactic(auto)]
