// What soundness of an image says and what follows: each page once, in the tree or in the chain, and how long a walk can be. A means of
// proof: there is no code.
#![tactic(auto)]
