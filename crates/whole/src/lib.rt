// Whole numbers: the laws of ℤ, and the rules by which `omega` proves linear facts about them. All of it is in specs/.
#![tactic(auto)]
