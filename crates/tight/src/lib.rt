// The tight image that a list of runs becomes: its definitions stand in specs/.
#![tactic(auto)]
