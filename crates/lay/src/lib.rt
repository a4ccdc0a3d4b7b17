// Lays a record out in columns, a row for each prefix that holds a key, in preorder.
// Helpers between crates, with what each asks of its caller.
#![tactic(auto)]

ghost use Rattle.std.specs.Prelude.{◌≡◌, ◌+◌, ◌<◌};
ghost use Rattle.reader.specs.Kind.{body_of};
ghost use Rattle.format.specs.Limits.{node_limit};
ghost use Rattle.keys.specs.Gather.{Readable};
ghost use Rattle.lay.specs.Sheet.{Unwritten, noted};
ghost use Rattle.lay.specs.Lay.{child, Ready, Lays, LaidOut};

use keys::key_at;
use reader::{Kind, NIL, NODES, PREFIX, RESTRICTION, kind_at};
use shared::{NAMES, Name, slot, slot_of};

// The place of a term: where it begins, the number of its root, and the row of its first key.
#[derive(Clone, Copy)]
pub struct Place {
    pub at: usize,
    pub node: usize,
    pub row: usize,
}

impl Place {
    // Goes on to the child of the node that stands here, which is of this kind.
    fn enter(&mut self, kind: Kind)
        requires { (self.old.at + body_of kind < usize.MAX) × (self.old.node < usize.MAX) }
        ensures { self.new ≡ child self.old kind }
    {
        self.at += 1 + kind.body();
        self.node += 1;
    }
}

// Columns with a place for each row: its key, its action, the row that follows all below it, its scope, and the key right above it. While a
// record is laid out, for each name one more than the number of the nearest restriction on it that is open, 0 if there is none.
#[derive(Drop)]
pub struct Sheet {
    pub keys: [u16; NODES],
    pub actions: [u8; NODES],
    pub ends: [u16; NODES],
    pub scopes: [u16; NODES],
    pub ups: [u16; NODES],
    nearest: [u16; NAMES],
}

impl Sheet {
    // A sheet on which nothing is written yet.
    pub fn new() -> Sheet
        ensures { Unwritten result }
    {
        Sheet {
            keys: [0; NODES],
            actions: [0; NODES],
            ends: [0; NODES],
            scopes: [0; NODES],
            ups: [0; NODES],
            nearest: [0; NAMES],
        }
    }

    // Writes a row but for its end.
    fn note(&mut self, row: usize, key: u16, action: u8, up: u16)
        requires { row < node_limit }
        ensures { self.new ≡ noted self.old row key action up }
    {
        self.keys[row] = key;
        self.actions[row] = action;
        self.scopes[row] = self.nearest[slot_of(action)];
        self.ups[row] = up;
    }

    // Lays out the term that stands at a place, below the key `up`, 0 for none, and goes on to the place of what follows it. Each kind with a
    // body has a branch of its own, so that the place of the child waits for no table. The tests are of the byte: a match on the kind is a jump.
    fn lay(&mut self, s: &[u8], place: &mut Place, up: u16)
        requires { Ready s.now place.old.at place.old.node place.old.row }
        ensures { Lays s.now place.old.at place.old.node place.old.row up self.old place.new self.new }
    {
        let at = place.at;
        let byte = s[at];
        if byte == PREFIX {
            place.enter(Kind::Prefix);
            let key = key_at(s, at);
            if key == 0 {
                return self.lay(s, place, up);
            }
            let row = place.row;
            self.note(row, key, s[at + 1], up);
            place.row += 1;
            self.lay(s, place, key);
            self.ends[row] = place.row as u16;
            return;
        }
        if byte == RESTRICTION {
            place.enter(Kind::Restriction);
            let a = slot(Name(s[at + 1]));
            let outer = self.nearest[a];
            self.nearest[a] = place.node as u16;
            self.lay(s, place, up);
            self.nearest[a] = outer;
            return;
        }
        if byte == NIL {
            return place.enter(Kind::Nil);
        }
        place.enter(kind_at(s, at));
        self.lay(s, place, up);
        self.lay(s, place, up);
    }

    // Lays out a readable record, and answers how many rows it has.
    pub fn lay_all(&mut self, s: &[u8]) -> usize
        requires { Readable s.now }
        ensures { LaidOut s.now result self.new }
    {
        self.nearest = [0; NAMES];
        let mut place = Place {
            at: 0,
            node: 0,
            row: 0,
        };
        self.lay(s, &mut place, 0);
        place.row
    }
}
