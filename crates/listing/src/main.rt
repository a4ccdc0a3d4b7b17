// Lists a record (01, the listing program): its counts, each forward step in order, each allowed undo by ascending key.
#![tactic(auto)]

mod lines;
mod out;
mod text;

// One byte more than the longest record, enough to decide any input.
const INPUT: usize = 16385;

fn main() {
    let mut buffer = [0u8; INPUT];
    let n = io::read_full(0, &mut buffer);
    let _ = lines::list(&buffer[..n]);
}
