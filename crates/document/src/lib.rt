// All known elements of a file: which there are and where, or the first of its refusals 1 to 8.
//
// Promises: `read_index` answers every file; where there is no refusal, every known element is at the front of the words that it was lent.
// proofs/Laws.antt says that this is what crates/file_rules/specs/Document.antt says of its document.
// May not touch: what the elements say together (names, channels, expressions): that is for the crates above.
#![tactic(auto)]

ghost use Rattle.std.specs.Prelude.{◌≡◌, ℕ, suc, ◌+◌, ◌≤◌, ◌<◌, List, ◌++◌, length, take, Ok};
ghost use Rattle.file_rules.specs.RefusalCode.{breach_at};
ghost use Rattle.shape.specs.Shape.{Shaped};
ghost use Rattle.walk.specs.WalkCode.{name_at, content_at, skipped};
ghost use Rattle.schema.specs.SchemaCode.{kind_count, attribute_count};
ghost use Rattle.document.specs.EntriesCode.{entry_room};
ghost use Rattle.document.specs.DocumentCode.{refused_found, one_more, marked, is_over, lacks_some, closed_walk, child_at, looked, first_fault, visit_body, visit_from, index_at, none_found, indexed, entry_by, found, Sound, Ready, VisitedIs, InsideIs, EnteredIs, Holds, IndexedIn};
ghost use Rattle.lists.specs.FillsCode.{Filled};

use element::{Gathered, Tag, faults, fields};
use file_rules::{Breach, Refusal};
use lists::bits;
use schema::attributes::ATTRIBUTES;
use schema::{Times, attributes, kinds};
use shape::Unshaped;
use text::runs;
use walk::{Body, Item, Part, elements, items, tags};

// The words of a row: which attributes there are, as a set, and their numbers.
pub const ROW: usize = ATTRIBUTES + 2;

// The most words that all entries of a file without faults have: 382 of three words, 86 of them with a row.
const MOST: usize = 382 * 3 + 86 * ROW;

// So much room that any entry fits behind these.
pub const ROOM: usize = MOST + ROW + 3;

// The walk so far: where it stands, where the entries end or the first refusal, and whether a required element lacks. The words of the entries are
// no field: they are the caller's (fixed memory), and behind a refusal nothing is said of them, so that no invariant would hold of both.
#[derive(Clone, Copy)]
pub struct Walk {
    pub at: usize,
    pub end: Result<usize, Refusal>,
    pub lacking: bool,
}

// The walk behind an element, and whether text that is no blank stands in the element.
#[derive(Clone, Copy)]
pub struct Inside {
    pub walk: Walk,
    pub stray: bool,
}

// What an element holds so far: how many (counted up to 64), and which kinds, as a set.
#[derive(Clone, Copy)]
pub struct Seen {
    pub count: usize,
    pub kinds: u64,
}

// An element by its name: its kind, and where the name ends.
#[derive(Clone, Copy)]
pub struct Named {
    pub kind: usize,
    pub to: usize,
}

// A refusal by the paper's number.
fn refusal(breach: Breach, place: usize) -> Refusal
    ensures { result ≡ breach_at breach place }
{
    Refusal {
        number: breach as u32,
        place,
    }
}

// The numbers of an element's attributes, from `at` on; where they end.
fn put_values(values: [u32; ATTRIBUTES], at: usize, words: &mut [u32]) -> usize
    requires { at + attribute_count ≤ length words.old }
    ensures { Filled (take at words.old ++ values) words.old words.new result }
{
    let end = at + ATTRIBUTES;
    words[at..end].copy_from_slice(&values[..]);
    end
}

// The element where the walk stands is entered, if there is room for it: its kind, its place, the number in its text, and its row.
fn enter(walk: Walk, kind: usize, number: u32, g: Gathered, words: &mut [u32]) -> Walk
    requires { (length words.old ≡ entry_room) × (walk.at ≤ 32768) × (kind < kind_count) × Sound walk.end words.old }
    ensures { EnteredIs (found walk words.old) (entry_by kind walk.at number g) walk.at result words.new }
{
    let Ok(at) = walk.end else {
        return walk;
    };
    if MOST < at {
        return walk;
    }
    words[at] = kind as u32;
    words[at + 1] = walk.at as u32;
    words[at + 2] = number;
    if attributes::is_ruled(kind) {
        words[at + 3] = (g.has % 4294967296) as u32;
        words[at + 4] = (g.has / 4294967296) as u32;
        let end = put_values(g.values, at + 5, words);
        return Walk {
            end: Ok(end),
            ..walk
        };
    }
    Walk {
        end: Ok(at + 3),
        ..walk
    }
}

// Behind a refusal there are no entries.
fn refused(walk: Walk, breach: Breach, place: usize) -> Walk
    ensures { ((ms : List ℕ) → found result ms ≡ refused_found (found walk ms) breach place) × (result.at ≡ walk.at) × (result.end ≡ Err (breach_at breach place)) }
{
    let first = refusal(breach, place);
    Walk {
        end: Err(first),
        ..walk
    }
}

fn move_to(walk: Walk, at: usize) -> Walk
    ensures { ((ms : List ℕ) → found result ms ≡ found walk ms) × (result.at ≡ at) × (result.end ≡ walk.end) }
{
    Walk { at, ..walk }
}

// Beyond every limit the count stands still.
fn one_more(count: usize) -> usize
    ensures { result ≡ one_more count }
{
    if count < 64 { count + 1 } else { count }
}

fn mark(seen: Seen, kind: usize) -> Seen
    ensures { result ≡ marked seen kind }
{
    if kinds::is_carried(kind) {
        let count = one_more(seen.count);
        let kinds = bits::with_bit(seen.kinds, kind);
        return Seen { count, kinds };
    }
    seen
}

// One too many of its kind, or of its parent's.
fn is_over(parent: usize, kind: usize, seen: Seen) -> bool
    ensures { result ≡ is_over parent kind seen }
{
    let limit = kinds::times_of(parent);
    match limit {
        Times::Once => bits::has_bit(seen.kinds, kind),
        Times::OneTo(m) | Times::UpTo(m) => (m as usize) <= seen.count,
    }
}

// Does an element lack what it must hold?
fn lacks_some(kind: usize, seen: Seen) -> bool
    ensures { result ≡ lacks_some kind seen }
{
    let limit = kinds::times_of(kind);
    match limit {
        Times::Once => {
            let carried = kinds::carried_in(kind);
            !bits::has_all(seen.kinds, carried)
        }
        Times::OneTo(_) => seen.count == 0,
        Times::UpTo(_) => false,
    }
}

// At the end tag, behind which the walk goes on.
fn close(walk: Walk, kind: usize, seen: Seen, end: usize, stray: bool) -> Inside
    ensures { ((ms : List ℕ) → found result.walk ms ≡ closed_walk (found walk ms) kind seen) × (result.walk.at ≡ end) × (result.stray ≡ stray) × (result.walk.end ≡ walk.end) }
{
    let lacking = walk.lacking | lacks_some(kind, seen);
    let closed = Walk {
        at: end,
        lacking,
        ..walk
    };
    Inside {
        walk: closed,
        stray,
    }
}

// The element at j, under an element of the kind `parent`.
pub fn child_at(file: &[u8], j: usize, parent: usize) -> Named
    ensures { (result.kind ≡ child_at file.now j parent) × (result.to ≡ (name_at file.now j).to) }
{
    let Part { from, to } = tags::name_of(file, j);
    let kind = kinds::kind_under(parent, &file[from..to]);
    Named { kind, to }
}

// The first of 4, 7 for its kind, 5, 6, 7 for a value, by its attributes and whether its text is bad.
fn fault_of(kind: usize, over: bool, g: Gathered, bad: bool) -> Option<Breach>
    ensures { result ≡ first_fault kind over bad g }
{
    if kinds::is_barred(kind) {
        return Some(Breach::Uncarried);
    }
    if over {
        return Some(Breach::Surplus);
    }
    faults::verdict_of(kind, g, bad)
}

// Is an element of that kind looked at? Not behind a refusal.
fn is_looked_at(walk: Walk, kind: usize) -> bool
    ensures { (ms : List ℕ) → result ≡ looked (found walk ms) kind }
{
    walk.end.is_ok() & (kinds::is_carried(kind) | kinds::is_barred(kind))
}

// Over the element where the walk stands.
fn pass(file: &[u8], walk: Walk) -> Walk
    ensures { ((ms : List ℕ) → found result ms ≡ found walk ms) × (result.at ≡ skipped file.now walk.at) × (result.end ≡ walk.end) }
{
    let end = elements::skip(file, walk.at);
    move_to(walk, end)
}

// The element where the walk stands, so named, in which elements nest at most `left` deep, and all known elements in it. Stray text shows only behind it.
#[cycle(visit_visit_inside)]
fn visit(file: &[u8], name: Named, over: bool, left: usize, walk: Walk, words: &mut [u32]) -> Walk
    requires { Ready file.now left walk words.old × (name.to ≡ (name_at file.now walk.at).to) }
    ensures { VisitedIs file.now walk.at (visit_from file.now left walk.at name.kind over (found walk words.old)) result words.new }
{
    let i = walk.at;
    let kind = name.kind;
    if !is_looked_at(walk, kind) {
        return pass(file, walk);
    }
    let Tag { gathered, body } = element::gather(file, name.to, kind);
    let said = fields::read_text(file, kind, body);
    let misspelt = said.is_none();
    let number = said.unwrap_or(0);
    if let Some(told) = fault_of(kind, over, gathered, misspelt) {
        let bad = faults::bad_text(file, kind, body, misspelt);
        let first = fault_of(kind, over, gathered, bad).unwrap_or(told);
        let faulty = refused(walk, first, i);
        return pass(file, faulty);
    }
    let entered = enter(walk, kind, number, gathered, words);
    let inside = visit_inside(file, kind, body, left - 1, entered, words);
    let all = inside.walk;
    if !faults::is_worded(kind) & inside.stray {
        let strayed = refused(walk, Breach::Misvalued, i);
        return move_to(strayed, all.at);
    }
    all
}

// All known elements in the element where the walk stands, which is of that kind and has been entered; elements nest at most `left` deep in it.
// In a file of good shape its end tag comes before anything that is broken. Blanks are passed first: text behind them is no blank.
#[cycle(visit_visit_inside)]
fn visit_inside(
    file: &[u8],
    kind: usize,
    body: Body,
    left: usize,
    entered: Walk,
    words: &mut [u32],
) -> Inside
    requires { Ready file.now (suc left) entered words.old × (body ≡ content_at file.now entered.at) }
    ensures { InsideIs file.now entered.at (visit_body (visit_from file.now left) file.now kind (found entered words.old) (content_at file.now entered.at)) result words.new }
{
    let i = entered.at;
    match body {
        Body::Broken => close(entered, kind, Seen { count: 0, kinds: 0 }, i, false),
        Body::Empty(e) => close(entered, kind, Seen { count: 0, kinds: 0 }, e, false),
        Body::Open(o) => {
            let mut all = move_to(entered, o);
            let mut seen = Seen { count: 0, kinds: 0 };
            let mut stray = false;
            // No `for`: each item says where the next one begins.
            while all.at < file.len() {
                all.at = runs::blanks_end(file, all.at);
                match items::item_at(file, all.at) {
                    Item::Text(k) => {
                        stray = true;
                        all.at = k;
                    }
                    Item::Remark(k) => {
                        all.at = k;
                    }
                    Item::Child => {
                        let child = child_at(file, all.at, kind);
                        let surplus = is_over(kind, child.kind, seen);
                        all = visit(file, child, surplus, left, all, words);
                        seen = mark(seen, child.kind);
                    }
                    Item::Close(e) => {
                        return close(all, kind, seen, e, stray);
                    }
                    Item::Broken => {
                        return close(all, kind, seen, i, stray);
                    }
                }
            }
            close(all, kind, seen, i, stray)
        }
    }
}

// A required element that lacks comes after every fault of an element.
fn settle(walk: Walk, root: usize) -> Result<usize, Refusal>
    ensures { (ms : List ℕ) → Sound walk.end ms → Holds result ms (index_at root (found walk ms)) }
{
    let end = walk.end?;
    if walk.lacking {
        return Err(refusal(Breach::Lacking, root));
    }
    Ok(end)
}

fn none_found(at: usize) -> Walk
    ensures { ((ms : List ℕ) → found result ms ≡ none_found) × (result.at ≡ at) × (result.end ≡ Ok 0) }
{
    Walk {
        at,
        end: Ok(0),
        lacking: false,
    }
}

// The index of a file of good shape.
fn index_whole(file: &[u8], words: &mut [u32]) -> Result<usize, Refusal>
    requires { Shaped file.now (Ok tt) × (length words.old ≡ entry_room) }
    ensures { Holds result words.new (indexed file.now) }
{
    let root = items::root_at(file);
    let name = child_at(file, root, kinds::FILE);
    if kinds::is_carried(name.kind) {
        let all = visit(file, name, false, 8, none_found(root), words);
        return settle(all, root);
    }
    Err(refusal(Breach::Rootless, root))
}

// The known elements of a file at the front of the words, and where they end, or the first of its refusals 1 to 8. Behind them nothing is said of the words.
pub fn read_index(file: &[u8], words: &mut [u32; ROOM]) -> Result<usize, Refusal>
    ensures { IndexedIn file.now result words.new }
{
    match xml::read_shape(file) {
        Ok(()) => index_whole(file, words),
        Err(Unshaped::TooLong) => Err(refusal(Breach::Long, 32768)),
        Err(Unshaped::Broken(p)) => Err(refusal(Breach::Shapeless, p)),
    }
}
