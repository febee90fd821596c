// What holds of every run of a group: theorems over the definitions that the calls' promises cite. There is no code.
#![tactic(auto)]
