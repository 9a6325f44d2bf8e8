// What a file says that its plan does not: elements that are skipped, triggers that no expression names, and that nothing can be recorded.
//
// skips: the elements of a file that are skipped. triggers: the triggers that no expression names, among its entries.
// Promises: every answer is what specs/Omissions.antt says of a file that meets the rules; a refused file has no notices.
// May not touch: what is accepted and what the plan holds. Nothing here is asked by the converter.
#![tactic(auto)]

ghost use Rattle.std.specs.Prelude.{◌≡◌, set};
ghost use Rattle.lists.specs.Lists.{any};
ghost use Rattle.element.specs.ElementCode.{is_kind};
ghost use Rattle.document.specs.EntriesCode.{entries_in};
ghost use Rattle.omissions.specs.Omissions.{skipped_elements, Unnamed, Places, Recordless};
ghost use Rattle.omissions.specs.GoodCode.{GoodIs};

mod skips;
mod triggers;

use document::ROOM;
use schema::kinds;
use tables::cells::Entries;
use tables::rows;

// No plan is longer.
const LONGEST: usize = 1590;

// Does the file meet the rules? There is room for every plan, so that no file is refused for want of it.
fn is_good(file: &[u8]) -> bool
    ensures { GoodIs file.now result }
{
    let mut plan = [0; LONGEST];
    converter::convert(file, &mut plan).is_ok()
}

// A place, if there is room for it.
pub(crate) fn put(places: &mut [usize], n: usize, place: usize)
    ensures { places.new ≡ set places.old n place }
{
    if n < places.len() {
        places[n] = place;
    }
}

// The places of the elements that are skipped, in file order, as many as there is room for; how many there are. A file that is refused has none.
pub fn skipped(file: &[u8], places: &mut [usize]) -> usize
    ensures { Places (λ x l. l ≡ skipped_elements x) file.now places.old result places.new }
{
    if !is_good(file) {
        return 0;
    }
    skips::find(file, places)
}

// Is there a start action?
fn has_start(words: &[u32]) -> bool
    ensures { result ≡ any (λ e. is_kind e.kind "ACTION_START_LOG") (entries_in words.now) }
{
    Entries { words }.any(|element| kinds::is_same(element.kind(), kinds::ACTION_START_LOG))
}

// Can nothing ever be recorded? Not where the file is refused.
pub fn is_silent(file: &[u8]) -> bool
    ensures { Recordless file.now result }
{
    if !is_good(file) {
        return false;
    }
    let mut entries = [0; ROOM];
    let Ok(end) = document::read_index(file, &mut entries) else {
        return false;
    };
    let told = rows::tell(file, &entries[..end]);
    let head = told.head;
    let starts = has_start(&entries[..end]);
    !head.all & !starts
}

// The places of the triggers that no expression names, as many as there is room for, and how many there are.
pub fn unnamed(file: &[u8], places: &mut [usize]) -> usize
    ensures { Places Unnamed file.now places.old result places.new }
{
    if !is_good(file) {
        return 0;
    }
    let mut entries = [0; ROOM];
    let Ok(end) = document::read_index(file, &mut entries) else {
        return 0;
    };
    triggers::list(file, &entries[..end], places)
}
