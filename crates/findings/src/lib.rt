// What one pass finds of a part of a record, and how the moves of its parts combine at each node.
#![tactic(auto)]

ghost use Rattle.std.specs.Prelude.{◌≡◌, ℕ, List, [], ◌∷◌, ◌++◌};
ghost use Rattle.moves.specs.Move.{move_over_prefix, move_over_choice, move_over_parallel, move_over_restriction};
ghost use Rattle.findings.specs.Seen.{move_of, label_of, key_asked, choice_of, may_of, spots_of, places_of};

use shared::{NOT_DONE, Name, TAU, complementary, is_on};

// A step that is asked about: the undo of the key, or the forward step with the key at the node p, or at the nodes p and q if q is not 0.
// No second node is 0, as in 01 (Operations: forward step) and in the C interface.
#[derive(Clone, Copy)]
pub enum Ask {
    Undo { key: u16 },
    Forward { p: u16, q: u16, key: u16 },
}

impl Ask {
    // The key of the step.
    pub fn key(self) -> u16
        ensures { result ≡ key_asked self }
    {
        match self {
            Ask::Undo { key } => key,
            Ask::Forward { key, .. } => key,
        }
    }

    // Whether the prefix at node n with this key is one that the step takes.
    pub fn takes(self, n: u16, k: u16) -> bool
        ensures { result ≡ choice_of self n k }
    {
        match self {
            Ask::Undo { key } => key == k,
            Ask::Forward { p, q, .. } => n == p || q != 0 && n == q,
        }
    }

    // Whether a chosen prefix with this key may step: forward only if it is not done yet.
    pub fn may_step(self, k: u16) -> bool
        ensures { result ≡ may_of self k }
    {
        match self {
            Ask::Undo { .. } => true,
            Ask::Forward { .. } => k == NOT_DONE,
        }
    }
}

// The chosen prefixes of a part: none is there; all that are there step together, with this label; or they do not.
#[derive(Clone, Copy)]
pub enum Move {
    Still,
    Step(u8),
    Stuck,
}

impl Move {
    // The label of the step, if there is one.
    pub fn label(self) -> Option<u8>
        ensures { result ≡ label_of self }
    {
        match self {
            Move::Step(l) => Some(l),
            Move::Still | Move::Stuck => None,
        }
    }

    // The move of a prefix above this one, from whether the prefix is chosen, may step and is done, and whether a key stands below it.
    pub fn over_prefix(self, chosen: bool, may: bool, done: bool, any: bool, action: u8) -> Move
        ensures { move_of result ≡ move_over_prefix chosen may done any action (move_of self) }
    {
        match self {
            Move::Still if !chosen => Move::Still,
            Move::Still if may && !any => Move::Step(action),
            Move::Step(l) if done && !chosen => Move::Step(l),
            _ => Move::Stuck,
        }
    }

    // The move of a choice with this move on its left, from whether each side holds a key.
    pub fn over_choice(self, right: Move, lkeys: bool, rkeys: bool) -> Move
        ensures { move_of result ≡ move_over_choice lkeys rkeys (move_of self) (move_of right) }
    {
        match (self, right) {
            (Move::Still, Move::Still) => Move::Still,
            (Move::Still, Move::Step(l)) if !lkeys => Move::Step(l),
            (Move::Step(l), Move::Still) if !rkeys => Move::Step(l),
            _ => Move::Stuck,
        }
    }

    // The move of a parallel with this move on its left. Laid into the pass, as are the functions above.
    #[inline(always)]
    pub fn over_parallel(self, right: Move) -> Move
        ensures { move_of result ≡ move_over_parallel (move_of self) (move_of right) }
    {
        match (self, right) {
            (Move::Still, _) => right,
            (Move::Step(l), Move::Still) => Move::Step(l),
            (Move::Step(l), Move::Step(k)) if complementary(l, k) => Move::Step(TAU),
            _ => Move::Stuck, // no half goes alone
        }
    }

    // The move of a restriction above this one.
    pub fn over_restriction(self, name: Name) -> Move
        ensures { move_of result ≡ move_over_restriction name.0 (move_of self) }
    {
        match self {
            Move::Step(l) if is_on(name, l) => Move::Stuck, // the restriction hides it
            _ => self,
        }
    }
}

// Where the bytes of the chosen prefixes of a part begin: of none, one or two; of more, their number, and where the first two begin.
#[derive(Clone, Copy)]
pub enum Places {
    Zero,
    One(u16),
    Two(u16, u16),
    More(u16, u16, u16),
}

// The same in three short numbers: how many there are, and the first two, 0 where there is none. A pass hands this back at every level, so
// it has no room for a number beside it that tells the case.
#[derive(Clone, Copy)]
pub struct Spots {
    pub many: u16,
    pub first: u16,
    pub second: u16,
}

impl Spots {
    // No place.
    pub fn none() -> Spots
        ensures { result ≡ spots_of [] }
    {
        Spots {
            many: 0,
            first: 0,
            second: 0,
        }
    }

    // One place more, in front of these.
    pub fn after(self, at: u16) -> Spots
        ensures { (l : List ℕ) → self ≡ spots_of l → result ≡ spots_of (at ∷ l) }
    {
        Spots {
            many: self.many.saturating_add(1),
            first: at,
            second: self.first,
        }
    }

    // These places, and others behind them.
    pub fn join(self, others: Spots) -> Spots
        ensures { (l k : List ℕ) → self ≡ spots_of l → others ≡ spots_of k → result ≡ spots_of (l ++ k) }
    {
        let many = self.many.saturating_add(others.many);
        match self.many {
            0 => others,
            1 => Spots {
                many,
                first: self.first,
                second: others.first,
            },
            _ => Spots { many, ..self },
        }
    }

    // The places, by cases.
    pub fn places(self) -> Places
        ensures { (l : List ℕ) → self ≡ spots_of l → result ≡ places_of l }
    {
        match self.many {
            0 => Places::Zero,
            1 => Places::One(self.first),
            2 => Places::Two(self.first, self.second),
            n => Places::More(n, self.first, self.second),
        }
    }
}

// What is found of a part: whether a prefix of it holds a key, whether one holds the key asked about, where its chosen prefixes stand, and
// their move.
#[derive(Clone, Copy)]
pub struct Seen {
    pub any: bool,
    pub stands: bool,
    pub spots: Spots,
    pub moved: Move,
}
