// The shape of a configuration file and the tree that it spells: definitions, the types of the readers' answers, and laws.
//
// Promises: specs/Shape.antt and specs/Text.antt are what a reader must believe. proofs/Viability.antt, `by_run`: where the machine that reads
// byte by byte stops is what Shape.antt says of the file; proofs/OneDoc.antt, `one_doc`: a text spells at most one document.
// May not touch: what an element means. It knows no element's name, and has no code but a conversion of errors.
#![tactic(auto)]

ghost use Rattle.std.specs.Prelude.{◌≡◌};
ghost use Rattle.shape.specs.declared.Unshaped.TheVariants.{Broken};

// Why a file is not well shaped. Broken: some well-shaped text starts with this many of its bytes, and none with more.
#[derive(Clone, Copy)]
pub enum Unshaped {
    TooLong,
    Broken(usize),
}

// A file's shape.
pub type Shape = Result<(), Unshaped>;

// Where reading stopped: so many bytes can stand.
#[derive(Clone, Copy)]
pub struct Stop(pub usize);

// In a file that is not too long, reading stops where its shape is broken.
impl From<Stop> for Unshaped {
    ghost from_gives = { λ e r. r ≡ Broken e.0 };

    fn from(e: Stop) -> Unshaped {
        Unshaped::Broken(e.0)
    }
}

// Where reading came to.
pub type Step = Result<usize, Stop>;

// What a start tag ends as: open, for content, or empty.
#[derive(Clone, Copy)]
pub enum Tag {
    Open(usize),
    Empty(usize),
}

// What stands next in an element: more content, its end tag or a child.
#[derive(Clone, Copy)]
pub enum Mark {
    Again(usize),
    Close(usize),
    Child(usize),
}

// What stands outside the root: the end, or markup that is no comment.
#[derive(Clone, Copy)]
pub enum Outer {
    End(usize),
    Lt(usize),
}
