// What the program writes is document 01's output: `program` prints the runs that stand in a listing's bytes, and these are the
// runs of the image, for every image that the program comes to.
#![tactic(auto)]
