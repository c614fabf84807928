// Lists and sums: generic definitions and what holds of them. A means of proof: there is no code.
#![tactic(auto)]
