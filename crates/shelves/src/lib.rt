// Pages: the k-mers of a shelf from a place on, in alphabet order. Assumes nothing.
//
// A beginning is the letters read so far: the state of the word that they end in, and whether the word was met in them. The table of ways has,
// for each state, met or not, and each number of letters left, how many words complete a beginning to a k-mer of the shelf. A page goes
// down from the empty beginning: a letter whose ways all lie before the start is passed over, under any other its k-mers are listed, and
// behind the start nothing is passed over any more. So a page costs one descent and then a few steps for each further k-mer: where
// every word completes a beginning, and where nothing but the rest of the word itself does, what follows is written at once.
#![tactic(auto)]

ghost use Rattle.std.specs.Prelude.{◌≡◌, cond, suc, ◌+◌, ◌-◌, ◌*◌, ◌^◌, ◌≤◌, ◌<◌, eqb, length, MatchOption};
ghost use Rattle.definitions.specs.Lists.{tabulate};
ghost use Rattle.definitions.specs.Outcomes.{page_outcome};
ghost use Rattle.laws.specs.Rooms.{Written};
ghost use Rattle.states.specs.Tables.{Known, All};
ghost use Rattle.shelves.specs.Descents.{NextsSmall, MovesOf, leads, Tables, Tables-prop, Listed, Ended, Complete, AtOnce, ShelfOf, PageIs};
ghost use Rattle.shelves.specs.Answers.{paged};

use refusals::Refusal;
use states::States;

// What is added to a state where the word was met.
// By hand: whether the word was met is one bit more of the state, so that one number finds the row of moves and the place in a row of the ways.
const MET: u8 = 32;

// Where a letter leads, by its next state: the word is met where that is m.
fn arrive(m: u64, to: u8) -> u8
    requires { to ≤ 31 }
    ensures { result ≡ cond (eqb to m) (to + 32) to }
{
    if to as u64 == m { to + MET } else { to }
}

// Where each letter leads from each state: in the first 32 rows the word was not met before, in the others it was. It is met where the next
// state is m.
fn moves_of(m: u64, next: &[u8; 128]) -> [u8; 256]
    requires { NextsSmall next.now }
    ensures { MovesOf m next.now result }
{
    let mut moves: [u8; 256] = [0; 256];
    for (c, to) in next.iter().enumerate() {
        moves[c] = arrive(m, *to);
        moves[128 + c] = *to + MET;
    }
    moves
}

// A beginning: how many letters are left, its state, the number of its letters.
#[derive(Clone, Copy)]
struct Beginning {
    left: u64,
    state: u64,
    begun: u64,
}

// What a beginning leads to: the number of the word's letters, where each letter leads from each state, and where it is banned.
#[derive(Drop)]
struct Acceptor {
    m: u64,
    ban: [u8; 128],
    moves: [u8; 256],
    ghost tables: { Tables m moves ban } by { Tables-prop m moves ban },
}

impl Acceptor {
    ghost use Rattle.shelves.specs.Going.{Ready, RowReady, WaysTo, ways_from, ways_below, Longer};

    // The ways under a letter, where so many letters are left, this one among them; none where it is banned.
    fn ways_under(&self, left: u64, state: u64, letter: u64, ways: &[u64; 2048]) -> u64
        requires ready { Ready self.now left state ways.now }
        requires letter_bound { letter < 4 }
        ensures { result ≡ ways_below self.now state (left - 1) letter }
    {
        let c = (4 * state + letter) as usize;
        let few = left as u8;
        if few < self.ban[c % 128] {
            return ways[(64 * (left - 1) + self.moves[c] as u64) as usize];
        }
        0
    }

    // The ways from a state, by any letter.
    // By hand: four terms. Of a `sum` over a range the goals `sum-requires-clause-fits` and `returns` stay open.
    fn ways_on(&self, left: u64, state: u64, ways: &[u64; 2048]) -> u64
        requires { Ready self.now left state ways.now }
        ensures { result ≡ ways_from self.now state left }
    {
        let a_ways = self.ways_under(left, state, 0, ways);
        let c_ways = self.ways_under(left, state, 1, ways);
        let g_ways = self.ways_under(left, state, 2, ways);
        let t_ways = self.ways_under(left, state, 3, ways);
        a_ways + c_ways + g_ways + t_ways
    }

    // Writes the ways from the states from `lo` to below `hi` where so many letters are left.
    fn ways_row(&self, lo: u64, hi: u64, left: u64, ways: &mut [u64; 2048])
        requires { RowReady self.now lo hi left ways.old }
        ensures { Written lo hi (64 * left) (λ s. ways_from self.now s left) ways.old ways.new }
    {
        for state in lo..hi {
            let sum = self.ways_on(left, state, ways);
            ways[(64 * left + state) as usize] = sum;
        }
    }

    // Writes the table of ways, for up to k letters left.
    // By hand: one flat table, as the states' are: one index, 64 * left + state, finds an entry.
    fn ways_table(&self, k: u64, ways: &mut [u64; 2048])
        requires { (k ≤ 31) × (length ways.old ≡ 2048) }
        ensures { WaysTo self.now (suc k) ways.new }
    {
        ways_end(ways);
        for left in 1..k + 1 {
            self.ways_row(0, self.m, left, ways);
            self.ways_row(32, 33 + self.m, left, ways);
        }
    }

    // The beginning that is longer by a letter.
    fn longer(&self, at: Beginning, letter: u64) -> Beginning
        requires { Longer self.now at letter }
        ensures { result ≡ record { left = at.left - 1; state = leads self.now.moves at.state letter; begun = 4 * at.begun + letter } }
    {
        Beginning {
            left: at.left - 1,
            state: self.moves[(4 * at.state + letter) as usize] as u64,
            begun: 4 * at.begun + letter,
        }
    }
}

// Writes the ways where no letter is left: one from each state in which the word was met.
fn ways_end(ways: &mut [u64; 2048])
    requires { length ways.old ≡ 2048 }
    ensures { Ended ways.new }
{
    ways[..32].fill(0);
    ways[32..64].fill(1);
}

// Numbers that follow one another: the first, how many.
// By hand: how many there are is asked of it, which a `Range` would give by a subtraction.
#[derive(Clone, Copy)]
struct Stretch {
    first: u64,
    count: u64,
}

// Writes numbers that follow one another, or as many of them as the room takes.
fn run(numbers: Stretch, room: &mut [u64]) -> usize
    requires { numbers.first + numbers.count ≤ 4 ^ 31 }
    ensures { Listed (tabulate (λ i. numbers.first + i) numbers.count) 0 room.old room.new result }
{
    let first = numbers.first;
    let n = powers::lesser(numbers.count, room.len() as u64);
    for i in 0..n {
        room[i as usize] = first + i;
    }
    n as usize
}

// What a page goes down: the letters of a k-mer, the word, its acceptor, the ways of up to k letters, the powers of 4.
#[derive(Drop)]
struct Descent<'a> {
    k: u64,
    word: u64,
    acceptor: &'a Acceptor,
    ways: &'a [u64; 2048],
    powers: &'a [u64; 32],
    ghost complete: { Complete k acceptor.now.m word acceptor.now.moves acceptor.now.ban ways.now powers.now },
}

impl Descent<'_> {
    ghost use Rattle.shelves.specs.Going.{Reached, below};

    // The k-mers under a beginning from place `skip` on, where they are written at once: where every word completes it, and where just the rest of the
    // word does. Elsewhere none.
    fn at_once(&self, at: Beginning, skip: u64) -> Option<Stretch>
        requires { Reached self.now at skip }
        ensures { MatchOption result (0 < at.left) (λ s. AtOnce (below self.now at) skip s.first s.count) }
    {
        let power = self.powers[at.left as usize];
        let count = self.ways[(64 * at.left + at.state) as usize];
        let first = at.begun * power + skip;
        if count == power {
            return Some(Stretch {
                first,
                count: count - skip,
            });
        }
        if at.state + at.left == self.acceptor.m {
            return Some(Stretch {
                first: first + self.word % power,
                count: 1,
            });
        }
        None
    }

    // Writes the k-mers under a beginning, after so many that are passed over, as many as the room takes.
    fn fill(&self, at: Beginning, skip: u64, room: &mut [u64]) -> usize
        requires { Reached self.now at skip }
        ensures { Listed (below self.now at) skip room.old room.new result }
    {
        if room.is_empty() {
            return 0;
        }
        if let Some(numbers) = self.at_once(at, skip) {
            return run(numbers, room);
        }
        let acceptor = self.acceptor;
        let mut passed = skip;
        let mut written: usize = 0;
        for letter in 0..4 {
            let under = acceptor.ways_under(at.left, at.state, letter, self.ways);
            if passed < under {
                let next = acceptor.longer(at, letter);
                let behind = &mut room[written..];
                written += self.fill(next, passed, behind);
                passed = 0;
            } else {
                passed -= under;
            }
        }
        written
    }
}

// The page of a word of m letters, by its states.
fn page_by(
    k: u64,
    m: u64,
    word: u64,
    start: u64,
    states: &States,
    room: &mut [u64],
) -> Result<u64, Refusal>
    requires known { Known (λ ρ w. ShelfOf ρ w m word states.now.next states.now.ban) }
    requires in_range { (m ≤ k) × (k ≤ 31) }
    ensures { All (λ ρ w. ShelfOf ρ w m word states.now.next states.now.ban) (λ ρ w. PageIs ρ w k start room.old room.new result) }
{
    let acceptor = Acceptor {
        m,
        ban: states.ban,
        moves: moves_of(m, &states.next),
    };
    let mut ways: [u64; 2048] = [0; 2048];
    acceptor.ways_table(k, &mut ways);
    let size = ways[(64 * k) as usize];
    if size < start {
        return Err(Refusal::Start);
    }
    if size == start {
        return Ok(0);
    }
    let powers = powers::powers();
    let descent = Descent {
        k,
        word,
        acceptor: &acceptor,
        ways: &ways,
        powers: &powers,
    };
    let empty = Beginning {
        left: k,
        state: 0,
        begun: 0,
    };
    let written = descent.fill(empty, start, room);
    Ok(written as u64)
}

// Writes the k-mers of a shelf from place `start` on, as many as there are and the room takes, in increasing order of the k-mer itself, and tells how
// many. Refusals 1 to 4, then 8.
pub fn page(
    k: u64,
    m: u64,
    key: u64,
    word: u64,
    start: u64,
    room: &mut [u64],
) -> Result<u64, Refusal>
    ensures { paged result room.new ≡ page_outcome k m key word start room.old }
{
    let states = states::prepare(k, m, key, word)?;
    page_by(k, m, word, start, &states, room)
}
