// What a sound image comes to: the tree and supply that it shows. A means of proof. Its definitions stand in specs/.
#![tactic(auto)]
