// The image as a whole: its definitions stand in specs/.
#![tactic(auto)]
