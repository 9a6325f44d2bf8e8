// The single rules of one event that look at no plan word.
//
// admission: which events are accepted. endings: what time makes of the logging state, and what a frame answers. logging: what an action makes of it.
// matches: frames against filters and triggers. timeouts: how long a trigger stays true. start: the fresh engine, and no counts.
// Promises: each function is one line of the rules (crates/event_rules/specs/Rules.antt, Calls.antt), for every input.
// May not touch: plan words.
#![tactic(auto)]

pub mod admission;
pub mod endings;
pub mod logging;
pub mod matches;
pub mod start;
pub mod timeouts;
