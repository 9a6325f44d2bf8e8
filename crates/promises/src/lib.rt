// The demands, stated as the customer says them, and proved; no code.
//
// Promises: specs/Promises.antt; proofs/Demands.antt.
// May not touch: bytes; it cites the contracts of the layers.

#![tactic(auto)]
