// What a tight image shows: that it is sound, what it answers, and how its pages are laid out. A means of proof: there is no code.
#![tactic(auto)]
