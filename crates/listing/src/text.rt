// Short texts in a room of fixed size.
ghost use Rattle.std.specs.Prelude.{◌≡◌, ◌+◌, ◌≤◌, ◌<◌, length};

// A text of at most N bytes: as many bytes of the room as it is long.
#[derive(Clone, Copy)]
pub struct Text<const N: usize> {
    pub room: [u8; N],
    pub len: usize,
    ghost fits: { len ≤ N },
}

impl<const N: usize> Text<N> {
    // The text with no byte.
    pub fn new() -> Text<N>
        ensures { result.len ≡ 0 }
    {
        Text {
            room: [0; N],
            len: 0,
        }
    }

    // The text has no byte from now on.
    pub fn clear(&mut self)
        ensures { self.new.len ≡ 0 }
    {
        self.len = 0;
    }

    // The bytes of the text.
    pub fn bytes(&self) -> &[u8]
        ensures { length result.now ≡ self.now.len }
    {
        &self.room[..self.len]
    }

    // Puts a piece behind the text.
    pub fn put(&mut self, piece: &[u8])
        requires { self.old.len + length piece.now ≤ N }
        ensures { self.new.len ≡ self.old.len + length piece.now }
    {
        let end = self.len + piece.len();
        let room = &mut self.room[..];
        room[self.len..end].copy_from_slice(piece);
        self.len = end;
    }

    // Puts a short text behind it. All of its room is copied, since a copy of fixed length is one move, and what comes next is put over the
    // rest.
    pub fn put_text<const M: usize>(&mut self, piece: &Text<M>)
        requires { self.old.len + M ≤ N }
        ensures { self.new.len ≡ self.old.len + piece.now.len }
    {
        let end = self.len + M;
        let room = &mut self.room[..];
        room[self.len..end].copy_from_slice(&piece.room);
        self.len += piece.len;
    }

    // Puts the digit of a number that counts the units of one size. A zero in front of the number is written too, and not counted: what comes
    // next is put over it. That takes no branch.
    fn put_digit(&mut self, x: u16, unit: u16)
        requires { (self.old.len < N) × (0 < unit) }
        ensures { (self.old.len ≤ self.new.len) × (self.new.len ≤ self.old.len + 1) }
    {
        self.room[self.len] = b'0' + (x / unit % 10) as u8;
        self.len += usize::from(unit <= x);
    }

    // Puts a piece and a number behind it.
    pub fn put_field(&mut self, piece: &[u8], x: u16)
        requires { self.old.len + length piece.now + 5 ≤ N }
        ensures { self.new.len ≤ self.old.len + length piece.now + 5 }
    {
        self.put(piece);
        self.put_number(x);
    }

    // Puts a number in decimal. Its digits do not wait for each other, as they would in a loop of divisions by 10.
    pub fn put_number(&mut self, x: u16)
        requires { self.old.len + 5 ≤ N }
        ensures { self.new.len ≤ self.old.len + 5 }
    {
        self.put_digit(x, 10000);
        self.put_digit(x, 1000);
        self.put_digit(x, 100);
        self.put_digit(x, 10);
        self.room[self.len] = b'0' + (x % 10) as u8;
        self.len += 1;
    }
}
