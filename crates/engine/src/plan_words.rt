// The words of a plan with the places of its parts: what its header says, and the words from each part on.
//
// Promises: each method answers any words and places, by the words that `plan_by` reads there (specs/EventCode.antt). Whether they are a plan is the
// loader's.
ghost use Rattle.std.specs.Prelude.{◌≡◌, get_or, drop};
ghost use Rattle.engine.specs.EventCode.{plan_by};

use crate::rows;
use loader::Layout;

// The words of a plan, and where its filters and statements begin. Any words and places may stand in it.
#[derive(Clone, Copy)]
pub struct PlanWords<'a> {
    pub words: &'a [u32],
    pub lay: Layout,
}

impl<'a> PlanWords<'a> {
    pub(crate) fn channels(self) -> u32
        ensures { result ≡ (plan_by self.entry.words.now self.entry.lay).channels }
    {
        records::word(self.words, 1)
    }

    pub(crate) fn logs_all(self) -> bool
        ensures { result ≡ (plan_by self.entry.words.now self.entry.lay).log_all }
    {
        records::word(self.words, 2) == 1
    }

    pub(crate) fn trigger_count(self) -> u32
        ensures { result ≡ get_or self.entry.words.now 3 0 }
    {
        records::word(self.words, 3)
    }

    pub(crate) fn filter_count(self) -> u32
        ensures { result ≡ get_or self.entry.words.now 4 0 }
    {
        records::word(self.words, 4)
    }

    pub(crate) fn statement_count(self) -> u32
        ensures { result ≡ get_or self.entry.words.now 5 0 }
    {
        records::word(self.words, 5)
    }

    // The words from the first trigger on.
    pub(crate) fn triggers(self) -> &'a [u32]
        ensures { result.now ≡ drop 6 self.entry.words.now }
    {
        rows::tail(self.words, 6)
    }

    // The words from the first filter on.
    pub(crate) fn filters(self) -> &'a [u32]
        ensures { result.now ≡ drop self.entry.lay.filters self.entry.words.now }
    {
        rows::tail(self.words, self.lay.filters)
    }

    // The words from the first statement on.
    pub(crate) fn statements(self) -> &'a [u32]
        ensures { result.now ≡ drop self.entry.lay.statements self.entry.words.now }
    {
        rows::tail(self.words, self.lay.statements)
    }
}
