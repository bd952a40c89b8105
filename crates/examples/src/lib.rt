// Document 01's examples P1 to P12, held against the definitions.
#![tactic(auto)]
