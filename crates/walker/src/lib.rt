// The walker (01, The record): a record that is lent and its own place in it, kept together. Thin functions over the cursor.
// `node`, on plain parameters, is for all other callers.
#![tactic(auto)]

use cursor::{Cursor, Shown};
use shared::Node;

// A record and a cursor in it.
#[derive(Drop)]
pub struct Walker<'a> {
    pub record: &'a [u8],
    pub cursor: Cursor,
}

impl<'a> Walker<'a> {
    ghost use Rattle.std.specs.Prelude.{◌≡◌};
    ghost use Rattle.cursor.specs.At.{Opens, Shows, Goes};
    ghost use Rattle.walker.specs.Shown.{GoesOn};

    // A walker before the first node of the record; one that bears the refusal where the bytes are no record.
    pub fn open(bytes: &'a [u8]) -> Walker<'a>
        ensures { (result.«record» ≡ bytes.entry) × Opens bytes.entry.now result.cursor }
    {
        Walker {
            record: bytes,
            cursor: Cursor::open(bytes),
        }
    }

    // The node that the walker stands at.
    pub fn show(&self) -> Option<Shown>
        ensures { Shows self.now.«record».now self.now.cursor result }
    {
        self.cursor.show(self.record)
    }

    // Goes on to the node after the one that the walker stands at; past the last it stays there.
    pub fn advance(&mut self)
        ensures { (self.new.«record» ≡ self.old.«record») × Goes self.old.«record».now self.old.cursor self.new.cursor }
    {
        self.cursor.advance(self.record);
    }

    // Goes on so many steps.
    pub fn onward(&mut self, steps: u16)
        ensures { (self.new.«record» ≡ self.old.«record») × GoesOn self.old.«record».now self.old.cursor steps self.new.cursor }
    {
        for _ in 0..steps {
            self.advance();
        }
    }
}

ghost use Rattle.walker.specs.Shown.{NodeShown};

// What is shown of a node of the record: nothing past the last, and nothing of bytes that are no record.
pub fn node(bytes: &[u8], n: Node) -> Option<Shown>
    ensures { NodeShown bytes.now n.0 result }
{
    let mut walker = Walker::open(bytes);
    walker.onward(n.0);
    walker.show()
}
