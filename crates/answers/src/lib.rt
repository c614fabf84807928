// Facts about the reading calls on every image, sound or not. A means of proof: there is no code.
#![tactic(auto)]
