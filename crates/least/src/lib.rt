// The least of some numbers below n, which come and go. Helpers between crates, with what each asks of its caller.
#![tactic(auto)]

ghost use Rattle.std.specs.Prelude.{◌<◌, ◌≡◌};
ghost use Rattle.least.specs.Tree.{Leaves, Tree, Placed, Leaf};
ghost use Rattle.least.specs.Board.{There, Board, Built, Put, Some, Took};

// Stands in the place of a number that is not there: it is above all numbers. An Option would double the tree.
pub const NONE: u16 = 65535;

// A tree in a row, with a leaf for each number, and above every two places the lesser of them. One number waits outside, in place 0. Where
// numbers come that are less than all others, and go at once, the tree is not touched.
#[derive(Drop)]
pub struct Leasts<const PLACES: usize> {
    pub n: usize,
    pub tree: [u16; PLACES],
}

impl<const PLACES: usize> Leasts<PLACES> {
    // Fills the places above the leaves, the lowest first. None waits outside.
    pub fn build(&mut self)
        requires { Leaves self.old.n self.old.tree }
        ensures { Built self.old.n self.old.tree self.new.tree × (self.new.n ≡ self.old.n) }
    {
        for at in (1..self.n).rev() {
            self.tree[at] = self.tree[at + at].min(self.tree[at + at + 1]);
        }
        self.tree[0] = NONE;
    }

    // Writes `value`, which is k or NONE, to the place of k, and goes up from there, from each place to the one at half its number.
    fn place(&mut self, k: usize, value: u16)
        requires tree { Tree self.old.n self.old.tree }
        requires k_lt_n { (k < self.old.n) × Leaf k value }
        ensures { Placed self.old.n k value self.old.tree self.new.tree × (self.new.n ≡ self.old.n) }
    {
        let mut at = self.n + k;
        let mut least = value;
        self.tree[at] = least;
        while 1 < at {
            least = least.min(self.tree[at + 1 - at % 2 * 2]);
            at /= 2;
            self.tree[at] = least;
        }
    }

    // The number k comes. If it is less than the one that waits outside, it waits there, and that one goes into the tree.
    pub fn put(&mut self, k: usize)
        requires board { Board self.old.n self.old.tree }
        requires k_lt_n { (k < self.old.n) × (¬ There self.old.n self.old.tree k) }
        ensures { Put self.old.n k self.old.tree self.new.tree × (self.new.n ≡ self.old.n) }
    {
        let outside = self.tree[0];
        let new = k as u16;
        if outside < new {
            self.place(k, new);
            return;
        }
        self.tree[0] = new;
        if outside < NONE {
            self.place(usize::from(outside), outside);
        }
    }

    // The least number goes; the caller knows that there is one.
    pub fn take(&mut self) -> usize
        requires board { Board self.old.n self.old.tree }
        requires some { Some self.old.n self.old.tree }
        ensures { Took self.old.n result self.old.tree self.new.tree × (self.new.n ≡ self.old.n) }
    {
        let outside = self.tree[0];
        let root = self.tree[1];
        if outside < root {
            self.tree[0] = NONE;
            return usize::from(outside);
        }
        let least = usize::from(root);
        self.place(least, NONE);
        least
    }
}
