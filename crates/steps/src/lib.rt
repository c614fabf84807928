// The five steps of a change: their definitions stand in specs/.
#![tactic(auto)]
