// More theorems over the definitions of the crates below: the table's rule by its pairs, look up by the meaning, each byte of a file once, and tidy as a
// property of a file. There is no code here.
#![tactic(auto)]
