// A set of labels: one bit for each of the 256, in four words. Each contract says which labels are in the result.
#![tactic(auto)]

ghost use Rattle.std.specs.Prelude.{◌≡◌, ◌⊎◌, cond, ℕ, ◌<◌};
ghost use Rattle.ccsk.specs.Term.{Co, On, Channel};
ghost use Rattle.shared.specs.Tells.{Tells};
ghost use Rattle.labelset.specs.Set.{word, Shows, Exactly, even};

// Label l is bit l % 64 of word l / 64: names stand in a and b, their co-names at the same bits of c and d. Four fields and no array: an array
// indexed by a label would lie in memory.
#[derive(Clone, Copy)]
pub struct Labels {
    pub a: u64,
    pub b: u64,
    pub c: u64,
    pub d: u64,
}

// A word without its lowest bit.
fn even_part(w: u64) -> u64
    ensures { result ≡ even w }
{
    w - w % 2
}

// A word, or 0 if the test fails.
fn word_if(test: bool, w: u64) -> u64
    ensures { result ≡ cond test w 0 }
{
    if test { w } else { 0 }
}

impl Labels {
    // The set with no label.
    pub fn empty() -> Labels
        ensures { Exactly result (λ l. ⊥) }
    {
        Labels {
            a: 0,
            b: 0,
            c: 0,
            d: 0,
        }
    }

    // The set of all labels.
    pub fn full() -> Labels
        ensures { Exactly result (λ l. l < 256) }
    {
        Labels {
            a: u64::MAX,
            b: u64::MAX,
            c: u64::MAX,
            d: u64::MAX,
        }
    }

    // The set with one label: its bit in the word where the label stands, else no bit.
    pub fn only(label: u8) -> Labels
        ensures { Exactly result (λ l. l ≡ label) }
    {
        let i = label / 64;
        let bit = 1u64 << (label % 64);
        Labels {
            a: word_if(i == 0, bit),
            b: word_if(i == 1, bit),
            c: word_if(i == 2, bit),
            d: word_if(i == 3, bit),
        }
    }

    // The word at a place of the set. Tests of an order become moves, tests of equality would become a jump through a table.
    fn word(self, i: u8) -> u64
        requires { i < 4 }
        ensures { result ≡ word self i }
    {
        if i < 2 {
            if i < 1 { self.a } else { self.b }
        } else if i < 3 {
            self.c
        } else {
            self.d
        }
    }

    // Whether the label is in the set.
    pub fn has(self, label: u8) -> bool
        ensures { Tells result (Shows self label) }
    {
        (self.word(label / 64) >> (label % 64)) % 2 == 1
    }

    // Whether the two sets have no label in common.
    pub fn apart(self, other: Labels) -> bool
        ensures { Tells result ((l : ℕ) → ¬ (Shows self l × Shows other l)) }
    {
        let common = (self.a & other.a)
            | (self.b & other.b)
            | (self.c & other.c)
            | (self.d & other.d);
        common == 0
    }

    // The labels that are in one of the two sets, or in both.
    pub fn joined(self, other: Labels) -> Labels
        ensures { Exactly result (λ l. Shows self l ⊎ Shows other l) }
    {
        Labels {
            a: self.a | other.a,
            b: self.b | other.b,
            c: self.c | other.c,
            d: self.d | other.d,
        }
    }

    // The complements of the labels in the set. Tau, bit 0 of a, has none, and is the complement of none.
    pub fn complements(self) -> Labels
        ensures { Exactly result (λ l. (k : ℕ) × Co l k × Shows self k) }
    {
        Labels {
            a: even_part(self.c),
            b: self.d,
            c: even_part(self.a),
            d: self.b,
        }
    }

    // The set without the name and its co-name, whose bit stands two words on.
    pub fn without_name(self, name: u8) -> Labels
        requires { Channel name }
        ensures { Exactly result (λ l. Shows self l × ¬ On name l) }
    {
        let m = Labels::only(name);
        Labels {
            a: self.a ^ (self.a & m.a),
            b: self.b ^ (self.b & m.b),
            c: self.c ^ (self.c & m.a),
            d: self.d ^ (self.d & m.b),
        }
    }
}
