#![tactic(auto)]

// The definitions of the selection unit stand in specs/, and the lemmas about them in proofs/. There is no running code.
