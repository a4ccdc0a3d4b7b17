// A set of keys: one bit a key.
#![tactic(auto)]

ghost use Rattle.std.specs.Prelude.{◌≡◌, List, ℕ, ◌+◌, ◌*◌, ◌<◌, ◌≤◌, ◌==◌, not, eqb, length, replicate, position};
ghost use Rattle.keyset.specs.Set.{bit, power, member, Added, Missing, LeastMissing, members_below, Listed, Fronted};

// Every 16-bit key has a bit.
pub const BYTES: usize = 8192;

// A byte of the set that holds all its eight keys.
const FULL: u8 = 255;

// Whether the byte has bit i.
fn has_bit(byte: u8, i: usize) -> bool
    requires { i < 8 }
    ensures { result ≡ eqb (bit byte i) 1 }
{
    (byte >> i) % 2 == 1
}

// The byte with bit i, which it has not yet.
fn with_bit(byte: u8, i: usize) -> u8
    requires { (i < 8) × (bit byte i ≡ 0) }
    ensures { result ≡ byte + power i }
{
    byte + (1u8 << i)
}

#[derive(Clone, Copy)]
pub struct KeySet {
    pub bytes: [u8; BYTES],
}

impl KeySet {
    // The empty set.
    pub fn new() -> KeySet
        ensures { result.bytes ≡ replicate 8192 0 }
    {
        KeySet { bytes: [0; BYTES] }
    }

    // Whether the key is in the set.
    pub fn has(&self, key: u16) -> bool
        ensures { result ≡ member self.now.bytes key }
    {
        let k = usize::from(key);
        has_bit(self.bytes[k / 8], k % 8)
    }

    // Puts the key into the set: how many more keys the set has then, 0 or 1.
    pub fn add(&mut self, key: u16) -> usize
        ensures { Added self.old.bytes key self.new.bytes result }
    {
        let k = usize::from(key);
        let at = k / 8;
        let byte = self.bytes[at];
        if has_bit(byte, k % 8) {
            return 0;
        }
        self.bytes[at] = with_bit(byte, k % 8);
        1
    }

    // The first byte that does not hold all its eight keys.
    fn byte_with_room(&self) -> Option<usize>
        ensures { result ≡ position (λ byte. not (byte == 255)) self.now.bytes }
    {
        self.bytes.iter().position(|byte| *byte != FULL)
    }

    // The least number that is not in the set; the caller knows that one is missing.
    pub fn least_missing(&self) -> u16
        requires { Missing self.now.bytes }
        ensures { LeastMissing self.now.bytes result }
    {
        let i = self.byte_with_room().unwrap();
        (i * 8) as u16 + self.bytes[i].trailing_ones() as u16
    }

    // Writes the numbers of byte i to the row, from place m on: the place after them. The caller has seen that the row is long enough.
    fn list_byte(&self, i: usize, m: usize, row: &mut [u16]) -> usize
        requires from { (i < 8192) × (m ≡ length (members_below self.now.bytes (i * 8))) }
        requires long { length (members_below self.now.bytes 65536) ≤ length row.old }
        ensures { (old : List ℕ) → Listed self.now.bytes old (i * 8) m row.old → Listed self.now.bytes old (i * 8 + 8) result row.new }
    {
        let byte = self.bytes[i];
        let mut n = m;
        for j in 0..8 {
            if has_bit(byte, j) {
                row[n] = (i * 8 + j) as u16;
                n += 1;
            }
        }
        n
    }

    // Writes the n numbers of the set to the front of a row, ascending; the caller has seen that the row is long enough. Bytes with none are
    // passed at once, and those after the last number are not looked at.
    pub fn list(&self, n: usize, row: &mut [u16])
        requires { (n ≡ length (members_below self.now.bytes 65536)) × (n ≤ length row.old) }
        ensures { Fronted (members_below self.now.bytes 65536) row.old row.new }
    {
        if n == 0 {
            return;
        }
        let mut m: usize = 0;
        for i in 0..BYTES {
            if self.bytes[i] != 0 {
                m = self.list_byte(i, m, row);
                if m == n {
                    return;
                }
            }
        }
    }
}
