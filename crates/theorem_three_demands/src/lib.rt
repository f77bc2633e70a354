// The three demands, each as one statement with one proof, over every public call. There is no code here.
#![tactic(auto)]
