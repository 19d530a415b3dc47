// What a way to choose the starts is, and that verdict and offers answer exactly that. All of it is in specs/.
#![tactic(auto)]
