// Rows of links threaded by their lower keys and counted for their upper keys, which become numbers.
// Helpers between crates, with what each asks of its caller.
#![tactic(auto)]

ghost use Rattle.std.specs.Prelude.{◌≡◌, ◌<◌, length};
ghost use Rattle.rank.specs.Rank.{rank};
ghost use Rattle.threads.specs.Threads.{Held, Sortable, Threadable, Threads, Ready, Threaded};

use filing::Cabinet;
use rank::Ranking;

// The number of a key of the set, which is below the number of keys.
fn number(ranks: &Ranking, key: u16) -> usize
    requires { (length ranks.now.set.now.bytes ≡ 8192) × Held ranks.now.set.now.bytes key }
    ensures is { result ≡ rank ranks.now.set.now.bytes key }
    ensures low { result < rank ranks.now.set.now.bytes 65536 }
{
    ranks.rank(key)
}

// Threads row i: counts it for its upper key, which becomes a number, and puts it in front of the rows that lead to its lower key.
// The two columns are no struct: later the counters change while the heads are lent.
fn thread(i: usize, ranks: &Ranking, cabinet: &mut Cabinet, heads: &mut [u16], counters: &mut [u16])
    requires { Threadable ranks.now.set.now.bytes cabinet.old heads.old counters.old i }
    ensures { Threads ranks.now.set.now.bytes cabinet.old heads.old counters.old i cabinet.new heads.new counters.new }
{
    let up = cabinet.upper[i];
    if !ranks.set.has(up) {
        return;
    }
    let u = number(ranks, up);
    let l = number(ranks, cabinet.lower[i]);
    cabinet.upper[i] = u as u16;
    cabinet.older[i] = heads[l];
    heads[l] = i as u16;
    counters[u] += 1;
}

// Threads the rows from 1 on.
pub fn thread_all(
    links: usize,
    ranks: &Ranking,
    cabinet: &mut Cabinet,
    heads: &mut [u16],
    counters: &mut [u16],
)
    requires sortable { Sortable ranks.now.set.now.bytes (rank ranks.now.set.now.bytes 65536) links cabinet.old.upper cabinet.old.lower }
    requires ready { Ready ranks.now.set.now.bytes cabinet.old heads.old counters.old }
    ensures threaded { Threaded ranks.now.set.now.bytes cabinet.old.upper cabinet.old.lower (length cabinet.old.upper) cabinet.new heads.new counters.new }
    ensures kept { (cabinet.new.lower ≡ cabinet.old.lower) × (cabinet.new.latest ≡ cabinet.old.latest) }
{
    for i in 1..links + 1 {
        thread(i, ranks, cabinet, heads, counters);
    }
}
