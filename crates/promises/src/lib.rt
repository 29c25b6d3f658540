// What is promised of several crates together: theorems over the promises of their public functions, in proofs/.
// Nothing runs here.

#![tactic(auto)]
