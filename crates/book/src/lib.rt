// The book of live requests, its ledger and what holds of any history: all of it stands in specs/ and proofs/.
#![tactic(auto)]
