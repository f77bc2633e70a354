// No code: the rule book and the table of rules in order, that they say the same, and what a segment that meets them gives its reader.
#![tactic(auto)]
