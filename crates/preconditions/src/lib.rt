// Every image on the path of an accepted change is ready for the code of its next step: proofs alone.
#![tactic(auto)]
