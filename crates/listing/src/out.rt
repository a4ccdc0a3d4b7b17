// Text for standard output, gathered and written when its room is full.
ghost use Rattle.std.specs.Prelude.{◌≡◌, ◌+◌, ◌≤◌};

use crate::text::Text;

// The room for what is gathered.
pub const SPACE: usize = 4096;

// Room enough for a line of a step or an undo: a piece, a number and a few bytes.
const LINE: usize = 32;

pub type Out = Text<SPACE>;

impl Text<SPACE> {
    // Writes what is gathered.
    pub fn flush(&mut self)
        ensures { self.new.len ≡ 0 }
    {
        io::write_all(1, self.bytes());
        self.clear();
    }

    // Makes room for a line: what is gathered is written if too little is left.
    pub fn line(&mut self)
        ensures { self.new.len + 32 ≤ 4096 }
    {
        if SPACE - self.len < LINE {
            self.flush();
        }
    }
}
