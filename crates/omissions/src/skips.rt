// The elements of a file that are skipped.
//
// Promises: `find` tells the places that specs/Omissions.antt names `skipped_elements`, as many as there is room for, and how many there are.
// May not touch: whether the file meets the rules; it is asked of files of good shape only.
ghost use Rattle.std.specs.Prelude.{◌≡◌, suc, Ok};
ghost use Rattle.shape.specs.Shape.{Node, WellShaped, Shaped};
ghost use Rattle.omissions.specs.Omissions.{skipped_elements};
ghost use Rattle.omissions.specs.SkipsCode.{Standing, SoughtIs, SoughtIn};
ghost use Rattle.omissions.specs.ToldCode.{Told};

use schema::kinds;
use walk::{Body, Item, elements, items, tags};

// The walk so far: where it stands, and how many elements were skipped.
#[derive(Clone, Copy)]
pub struct Sought {
    pub at: usize,
    pub count: usize,
}

// The element where the walk stands, under an element of the kind `parent`; elements nest at most `left` deep in it, itself included.
#[cycle(seek_seek_inside)]
fn seek(file: &[u8], parent: usize, left: usize, walk: Sought, places: &mut [usize]) -> Sought
    requires { Standing file.now left walk }
    ensures { SoughtIs file.now parent left walk places.old result places.new }
{
    let child = document::child_at(file, walk.at, parent);
    let kind = child.kind;
    if kinds::is_carried(kind) | kinds::is_barred(kind) {
        return seek_inside(file, kind, left - 1, walk, places);
    }
    crate::put(places, walk.count, walk.at);
    let at = elements::skip(file, walk.at);
    let count = walk.count + 1;
    Sought { at, count }
}

// What stands in the element where the walk stands, which is of that kind; elements nest at most `left` deep in it. In a file of good shape
// its end tag comes before anything that is broken.
#[cycle(seek_seek_inside)]
fn seek_inside(file: &[u8], kind: usize, left: usize, walk: Sought, places: &mut [usize]) -> Sought
    requires { Standing file.now (suc left) walk }
    ensures { SoughtIn file.now kind left walk places.old result places.new }
{
    let i = walk.at;
    let count = walk.count;
    match tags::content_at(file, i) {
        Body::Broken => walk,
        Body::Empty(at) => Sought { at, count },
        Body::Open(at) => {
            let mut all = Sought { at, count };
            // No iterator over items: where the next one stands the call for a child answers, so it would be written through at each turn.
            while all.at < file.len() {
                // Text and comments stay two arms: joined, the loop's goals would have no names of the source's own.
                match items::item_at(file, all.at) {
                    Item::Text(k) => {
                        all.at = k;
                    }
                    Item::Remark(k) => {
                        all.at = k;
                    }
                    Item::Child => {
                        all = seek(file, kind, left, all, places);
                    }
                    Item::Close(e) => {
                        all.at = e;
                        return all;
                    }
                    Item::Broken => {
                        return all;
                    }
                }
            }
            all
        }
    }
}

// The places of the elements that are skipped, in file order, at the front of what is lent; how many there are.
pub(crate) fn find(file: &[u8], places: &mut [usize]) -> usize
    requires { Shaped file.now (Ok tt) }
    ensures { (x : Node) → WellShaped file.now x → Told (skipped_elements x) places.old result places.new }
{
    let at = items::root_at(file);
    let all = seek(file, kinds::FILE, 8, Sought { at, count: 0 }, places);
    all.count
}
