// Nothing runs here: what the operations on floats give, as fractions rounded once, and that the toolchain's rounding is to
// nearest, ties to even.
#![tactic(auto)]
