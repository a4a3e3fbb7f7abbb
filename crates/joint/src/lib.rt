// What windows and a side mean together, as a pile has them; it has no code.
#![tactic(auto)]
