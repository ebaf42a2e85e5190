// Theorems only: what holds over every run. The statements are in specs/, beside their proofs; those that rest on `sleep-ends`, which a
// must-fail edit makes wrong, are in proofs/.
#![tactic(auto)]
