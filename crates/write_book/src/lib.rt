// No code: the rule book of what write is lent and the table of its rules in order, and that they say the same.
#![tactic(auto)]
