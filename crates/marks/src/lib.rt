// The cases of document 01, computed over the definitions: statements in specs/, and there is no code.
#![tactic(auto)]
