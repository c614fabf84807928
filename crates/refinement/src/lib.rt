// Which tree an image shows: a means of proof. Its definitions stand in specs/.
#![tactic(auto)]
