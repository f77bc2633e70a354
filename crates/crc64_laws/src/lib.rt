// The laws of the checksum's register that any fast engine stands on: a step is linear, and takes back a shift. There is no code here.
#![tactic(auto)]
