// Demands 2 and 3 over the definitions of the calls: theory alone.
#![tactic(auto)]
