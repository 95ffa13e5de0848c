// What the house rules mean: texts, numbers, kinds of identifiers and contents, line names, entries and patch texts.
// The definitions stand in specs/, what follows from them in proofs/; the contracts of the other crates cite both.
#![tactic(auto)]
