// The tree that an image shows, and what the steps of a change do to it: a means of proof. Its definitions stand in specs/.
#![tactic(auto)]
