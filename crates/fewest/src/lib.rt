// That a tight image has the fewest pages on every level, of all sound images with so many leaf entries. A means of proof: there is no
// code.
#![tactic(auto)]
