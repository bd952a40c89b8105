// The cache of replies to reads: definitions and laws alone.
#![tactic(auto)]
