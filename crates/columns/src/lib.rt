// Nothing runs here: what a stretch of an array is as a list, and what a load and a store in the array are in it.
#![tactic(auto)]
