// Laws that the proofs of several crates cite: matches, tests, lists. There is no function here.
#![tactic(auto)]
