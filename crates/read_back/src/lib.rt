// What is written can be read: laws, no code.
//
// Promises: proofs/Takes.antt, `loader_takes`: the loader takes every plan that `convert` writes, and what it reads is the plan of the file's own tables.
// proofs/Loads.antt: the loader's rule takes whatever `compile` answers, and its value is what the tree says. proofs/Places.antt, `places` and `lengths`:
// every refusal's place and every plan's length fit in 32 bits.
// May not touch: bytes; it cites the contracts of `convert` and `load`.

#![tactic(auto)]
