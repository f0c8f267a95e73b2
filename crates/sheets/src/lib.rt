// Sheets for the voices. Nothing is offered yet: what a word is typed as, and how it is read back from its group number, are defined in specs/.
#![tactic(auto)]
