// The keys that were noted, settled one by one at their ranks: how often each stands, and whether its lasts are ready.
#![tactic(auto)]

ghost use Rattle.std.specs.Prelude.{◌≡◌, true, List, [], ◌∷◌, ◌++◌, ℕ, ◌≤◌, ◌<◌};
ghost use Rattle.format.specs.Limits.{node_limit};
ghost use Rattle.shared.specs.Tells.{Tells};
ghost use Rattle.keyset.specs.Set.{member};
ghost use Rattle.rank.specs.Rank.{rank};
ghost use Rattle.keys.specs.Gather.{Holds};
ghost use Rattle.noting.specs.Node.{noted_keys, noted_lasts, SameLasts};
ghost use Rattle.settle.specs.declared.State.TheVariants.{Half};
ghost use Rattle.settle.specs.Group.{last_at, Counted, Small, Standing, Settled, AllIn, Fit, bumped, is_ready};

use lasts::Last;
use noting::Notes;
use rank::Ranking;
use reader::NODES;
use shared::complementary;

// What is known of a key. It was not counted yet; it stands once, or twice, with no last yet; it cannot be undone; it stands twice, and its
// first last is in the row that its slot says; it can be undone, and stands in its slot.
#[derive(Clone, Copy, PartialEq, Eq)]
pub enum State {
    Unseen,
    Once,
    Twice,
    Never,
    Half,
    Ready,
}

impl State {
    pub fn is_ready(self) -> bool
        ensures { result ≡ is_ready self }
    {
        self == State::Ready
    }
}

// A state with its slot.
#[derive(Clone, Copy)]
pub struct Met {
    pub state: State,
    pub slot: u16,
}

// One more, up to three.
fn bump(state: State) -> State
    ensures { result ≡ bumped state }
{
    match state {
        State::Unseen => State::Once,
        State::Once => State::Twice,
        State::Twice => State::Never,
        _ => state,
    }
}

// The rank of a key of the set, where no more than NODES keys are in it.
fn place(ranking: &Ranking, key: u16) -> usize
    requires { (rank ranking.now.set.now.bytes 65536 ≤ node_limit) × (member ranking.now.set.now.bytes key ≡ true) }
    ensures { (result ≡ rank ranking.now.set.now.bytes key) × (result < node_limit) }
{
    ranking.rank(key)
}

// Counts each key at its rank, up to three.
pub fn tally(keys: &[u16], ranking: &Ranking, states: &mut [State; NODES])
    requires counted { (rank ranking.now.set.now.bytes 65536 ≤ node_limit) × Small keys.now × Holds ranking.now.set.now.bytes keys.now }
    requires fresh { Counted ranking.now.set.now.bytes [] states.old }
    ensures { Counted ranking.now.set.now.bytes keys.now states.new }
{
    for key in keys {
        let r = place(ranking, *key);
        states[r] = bump(states[r]);
    }
}

// Whether two lasts can be the two halves of a step: one scope, complementary actions.
fn fit_together(e: Last, f: Last) -> bool
    ensures { Tells result (Fit e f) }
{
    e.scope == f.scope && complementary(e.action, f.action)
}

// The state and slot of a key after its last in row i.
fn meet(lasts: &[Last; NODES], i: usize, met: Met) -> Met
    requires { (i < node_limit) × (met.state ≡ Half → met.slot < node_limit) }
    ensures { (c : ℕ) (x : List Last) → Standing lasts.now (last_at lasts.now i).key c x met.state met.slot → Standing lasts.now (last_at lasts.now i).key c (x ++ (last_at lasts.now i ∷ [])) result.state result.slot }
{
    let last = lasts[i];
    let ready = Met {
        state: State::Ready,
        slot: last.key,
    };
    let half = Met {
        state: State::Half,
        slot: i as u16,
    };
    let never = Met {
        state: State::Never,
        slot: 0,
    };
    match met.state {
        State::Once => { if last.scope == 0 { ready } else { never } }
        State::Twice => half,
        State::Half => {
            if fit_together(lasts[usize::from(met.slot)], last) {
                ready
            } else {
                never
            }
        }
        _ => never,
    }
}

// Counts the keys, then settles the lasts, one after the other, at the ranks of their keys. The row of the keys is that of the slots
// afterwards: one row less. All else in the notes stays.
pub fn settle(notes: &mut Notes, ranking: &Ranking, states: &mut [State; NODES])
    requires keys { (notes.old.key_count ≤ node_limit) × Small (noted_keys notes.old) × Holds ranking.now.set.now.bytes (noted_keys notes.old) }
    requires lasts { (notes.old.last_count ≤ node_limit) × AllIn ranking.now.set.now.bytes (noted_lasts notes.old) }
    requires fresh { Counted ranking.now.set.now.bytes [] states.old }
    ensures settled { Settled ranking.now.set.now.bytes (noted_keys notes.old) notes.old.lasts (noted_lasts notes.old) states.new notes.new.keys }
    ensures stays { SameLasts notes.old notes.new × (notes.new.key_count ≡ notes.old.key_count) × (notes.new.scopes ≡ notes.old.scopes) }
{
    tally(&notes.keys[..notes.key_count], ranking, states);
    for i in 0..notes.last_count {
        let r = place(ranking, notes.lasts[i].key);
        let met = Met {
            state: states[r],
            slot: notes.keys[r],
        };
        let met = meet(&notes.lasts, i, met);
        states[r] = met.state;
        notes.keys[r] = met.slot;
    }
}
