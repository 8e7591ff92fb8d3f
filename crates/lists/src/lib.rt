// Laws of the definitions' small functions on lists, numbers and tests. There is nothing to run here.
#![tactic(auto)]
