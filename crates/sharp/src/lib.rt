// One word changed at a time in a sound memory: the table that shows the check to be sharp. No code.
#![tactic(auto)]
