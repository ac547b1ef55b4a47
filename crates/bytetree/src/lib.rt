// The tree over the pieces of a file as byte strings: definitions and laws.
#![tactic(auto)]
