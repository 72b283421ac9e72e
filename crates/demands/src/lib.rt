// What is demanded of the calls, of one and of any list of them, as theorems. No code.
#![tactic(auto)]
