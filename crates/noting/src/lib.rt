// What one node of a record notes: its key, the scope of its name, and how many of the prefixes that can be last stay.
#![tactic(auto)]

ghost use Rattle.std.specs.Prelude.{◌≡◌, ◌+◌, ◌<◌, length};
ghost use Rattle.format.specs.Limits.{node_limit};
ghost use Rattle.reader.specs.Kind.{byte_of};

use lasts::Last;
use reader::{Kind, NODES};
use shared::{NAMES, NOT_DONE, Name, key_of, slot, slot_of};

// What a pass over a record has noted so far: the keys and the lasts in front of two rows, and for each name its scope.
#[derive(Drop)]
pub struct Notes {
    pub scopes: [u16; NAMES],
    pub keys: [u16; NODES],
    pub key_count: usize,
    pub lasts: [Last; NODES],
    pub last_count: usize,
}

// What a node leaves behind before its first child is read: how many keys and lasts are noted, and the scope that its name had.
#[derive(Clone, Copy)]
pub struct Entered {
    pub keys: usize,
    pub lasts: usize,
    pub scope: u16,
}

impl Notes {
    ghost use Rattle.noting.specs.Node.{NoNotes, Enters, OverPrefix, OverRestriction, OverTwo};

    // Nothing is noted, and no name has a scope.
    pub fn new() -> Notes
        ensures { NoNotes result }
    {
        let none = Last {
            key: 0,
            action: 0,
            scope: 0,
        };
        Notes {
            scopes: [0; NAMES],
            keys: [0; NODES],
            key_count: 0,
            lasts: [none; NODES],
            last_count: 0,
        }
    }

    // Enters node n at `at`: a prefix notes its key, a restriction is the scope of its name from here.
    pub fn enter(&mut self, s: &[u8], at: usize, kind: Kind, n: usize) -> Entered
        requires at_in_bounds { (byte_of kind ≡ 1 → at + 3 < length s.now) × (byte_of kind ≡ 4 → at + 1 < length s.now) }
        requires room { (n < node_limit) × (self.old.key_count < node_limit) }
        ensures { Enters s.now at (byte_of kind) n self.old self.new result }
    {
        let mut scope = 0;
        if kind == Kind::Prefix {
            let key = key_of(s[at + 2], s[at + 3]);
            if key != NOT_DONE {
                self.keys[self.key_count] = key;
                self.key_count += 1;
            }
        }
        if kind == Kind::Restriction {
            let place = slot(Name(s[at + 1]));
            scope = self.scopes[place];
            self.scopes[place] = (n + 1) as u16;
        }
        Entered {
            keys: self.key_count,
            lasts: self.last_count,
            scope,
        }
    }

    // Leaves the prefix at `at`: with no key it passes none of the lasts below it, with none below it is last itself.
    pub fn leave_prefix(&mut self, s: &[u8], at: usize, entered: Entered)
        requires { (at + 3 < length s.now) × (entered.lasts < node_limit) }
        ensures { OverPrefix s.now at entered self.old self.new }
    {
        let own = key_of(s[at + 2], s[at + 3]);
        if own == NOT_DONE {
            self.last_count = entered.lasts;
        } else if self.key_count == entered.keys {
            let action = s[at + 1];
            self.lasts[entered.lasts] = Last {
                key: own,
                action,
                scope: self.scopes[slot_of(action)],
            };
            self.last_count = entered.lasts + 1;
        }
    }

    // Leaves the restriction at `at`: its name has the scope that it had before.
    pub fn leave_restriction(&mut self, s: &[u8], at: usize, entered: Entered)
        requires { at + 1 < length s.now }
        ensures { OverRestriction s.now at entered self.old self.new }
    {
        self.scopes[slot(Name(s[at + 1]))] = entered.scope;
    }

    // Leaves a choice or a parallel: a choice with keys on both sides passes none of the lasts below it. Between the sides there were
    // `between` keys.
    pub fn leave_two(&mut self, kind: Kind, entered: Entered, between: usize)
        ensures { OverTwo (byte_of kind) entered between self.old self.new }
    {
        if kind == Kind::Choice && between != entered.keys && self.key_count != between {
            self.last_count = entered.lasts;
        }
    }
}
