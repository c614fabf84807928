// The plain book of document 01, and the aggregate of Yang and Widom: their definitions stand in specs/.
#![tactic(auto)]
