// Whether a relation on small numbers has a cycle (01, Soundness, 7): numbers that stand above none that is left are taken out, one by one.
// Helpers between crates, with what each asks of its caller.
// Counters and queue stay two lent slices: a struct of them asks each method to promise that the references stay, or a bound on its size.
#![tactic(auto)]

ghost use Rattle.std.specs.Prelude.{◌≡◌, ◌↔◌, true, ◌+◌, ◌<◌, ◌≤◌, length, get_or};
ghost use Rattle.causes.specs.Columns.{Below};
ghost use Rattle.cycles.specs.Pair.{firsts, seconds};
ghost use Rattle.cycles.specs.Graph.{Columns, Acyclic};
ghost use Rattle.cycles.specs.Queue.{Queued};
ghost use Rattle.cycles.specs.Counters.{Room, Counted, Released, Ready};

// Two numbers, such as what stands right above a number, once or twice; 0 is nothing.
#[derive(Clone, Copy)]
pub struct Pair {
    pub first: u16,
    pub second: u16,
}

// Adds to each counter how often its number stands in the pairs.
fn count(over: &[Pair], counters: &mut [u16])
    requires below { Below (length counters.old) (firsts over.now) × Below (length counters.old) (seconds over.now) }
    requires room { Room (length over.now + length over.now) counters.old }
    ensures { Counted (firsts over.now) (seconds over.now) counters.old counters.new }
{
    for two in over {
        counters[usize::from(two.first)] += 1;
        counters[usize::from(two.second)] += 1;
    }
}

// Puts the numbers whose counter is 0 into the queue, and answers how many they are.
fn gather(counters: &[u16], queue: &mut [u16]) -> usize
    requires counters_len_bound { length counters.now ≤ 32767 }
    requires counters_in_bounds { length counters.now ≤ length queue.old }
    ensures { Queued (length counters.now) counters.now queue.new result }
{
    let mut tail: usize = 0;
    for (k, left) in counters.iter().enumerate() {
        if *left == 0 {
            queue[tail] = k as u16;
            tail += 1;
        }
    }
    tail
}

// One less for the counter of u; if that is 0, u goes to the end of the queue. Answers how long the queue is.
fn release(u: u16, counters: &mut [u16], queue: &mut [u16], tail: usize) -> usize
    requires u_in_bounds { u < length counters.old }
    requires nonzero { 0 < get_or counters.old u 0 }
    requires tail_in_bounds { tail < length queue.old }
    ensures { Released u counters.old queue.old tail counters.new queue.new result }
{
    let at = usize::from(u);
    let left = counters[at] - 1;
    counters[at] = left;
    if left == 0 {
        queue[tail] = u;
        tail + 1
    } else {
        tail
    }
}

// Takes out the numbers of the queue, the first `free` of which are there, until it runs empty; answers how many it has had. The loop follows
// the queue, which grows while it is read.
fn peel(over: &[Pair], counters: &mut [u16], queue: &mut [u16], free: usize) -> usize
    requires { Ready (firsts over.now) (seconds over.now) counters.old queue.old free }
    ensures { (result + 1 ≡ length over.now) ↔ Acyclic (firsts over.now) (seconds over.now) }
{
    let mut tail = free;
    let mut head: usize = 0;
    while head < tail {
        let two = over[usize::from(queue[head])];
        tail = release(two.first, counters, queue, tail);
        tail = release(two.second, counters, queue, tail);
        head += 1;
    }
    tail
}

// Whether going down never leads back. The counters and the queue are room to work in.
pub fn acyclic(over: &[Pair], counters: &mut [u16], queue: &mut [u16]) -> bool
    requires columns { Columns (firsts over.now) (seconds over.now) }
    requires counters_len { length counters.old ≡ length over.now }
    requires one_in_bounds { length over.now ≤ length queue.old }
    ensures { (result ≡ true) ↔ Acyclic (firsts over.now) (seconds over.now) }
{
    counters.fill(0);
    count(over, counters);
    let free = gather(counters, queue);
    let taken = peel(over, counters, queue, free);
    taken == over.len() - 1
}
