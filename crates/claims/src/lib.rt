// What is claimed of the calls, one by one and in lists: the statements stand in specs/.
#![tactic(auto)]
