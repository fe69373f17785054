// Worksheets: the antemers and postmers behind the size of a shelf, counted by states. Assumes nothing.
//
// Antemers and postmers are counted alike: the ways to complete a state by r letters are the sum, over the letters that are not banned there, of
// the ways to complete the next state by one letter less. Document 01's counts by shared prefix come back so: a word that begins with i letters of
// w goes on by one of the ways from state i, and "antemers T−1 shorter that share at least i−T+2 letters" are the ways from the next state. After an
// antemer stands w, so every m-mer that begins in it exists, and state m has no way on: w would stand there too soon. After a postmer
// stands nothing, so only an m-mer for which letters are left exists, and where none can exist any more the ways are a power of four.
#![tactic(auto)]

ghost use Rattle.std.specs.Prelude.{◌≡◌, suc, ◌+◌, ◌-◌, ◌^◌, ◌≤◌, ◌<◌, min, slice_index};
ghost use Rattle.definitions.specs.Lists.{tabulate};
ghost use Rattle.definitions.specs.Outcomes.{worksheet_outcome};
ghost use Rattle.laws.specs.Rooms.{Written};
ghost use Rattle.states.specs.Tables.{Known};
ghost use Rattle.worksheets.specs.Columns.{StatesOf, EntryIs, CaughtIs, EndIs, EndsAre, ReachIs, LastsIs, led_to, AllowedBy, way_of, sum_of, WayReady, SumReady, RowReady, TurnReady, Turned, Countable, CountedBy, AntemersAre, PostmersAre};
ghost use Rattle.worksheets.specs.Answers.{worked};

use refusals::Refusal;
use states::{NEVER, States};
use std::cmp::Ordering;

// A state above all others, where a banned letter leads: there are no ways from it.
// By hand: a number and no Option, since 0 ways stand at its place and a sum has no case for a banned letter.
const NOWHERE: u8 = 32;

// What a worksheet is made from: k, m, the states of a word of m letters, and the powers of four.
#[derive(Clone, Copy)]
struct Source<'s> {
    k: u64,
    m: u64,
    states: &'s States,
    powers: &'s [u64; 32],
    ghost in_range: { (0 < m) × (m ≤ k) × (k ≤ 31) },
    ghost known: { ∥ Known (λ ρ w. StatesOf ρ w m states.now) ∥₁ },
    ghost powers_are: { powers.now ≡ tabulate (λ n. 4 ^ n) 32 },
}

// What is counted: the state whose ways the rows hold, how many letters follow the words that are counted, below which state there are ways, and
// the last row.
#[derive(Clone, Copy)]
struct Side {
    start: u64,
    follow: u64,
    live: u64,
    rows: u64,
    ghost some: { 0 < start + follow },
    ghost few: { start + follow + rows ≤ 31 },
}

impl<'s> Source<'s> {
    ghost use Rattle.worksheets.specs.Sources.{Each};

    // w's own letter at a place.
    fn own_letter(&self, p: u64) -> u64
        requires { p < 32 }
        ensures own { result ≡ slice_index self.now.states.now.own p }
        ensures letter { result < 4 }
    {
        self.states.own[p as usize] as u64
    }

    // What a table has at row i for w's own letter at place p.
    fn own_entry<E: Copy>(&self, i: u64, p: u64, table: &[E; 128]) -> E
        requires { (i < 32) × (p < 32) }
        ensures { EntryIs i p self.now.states.now table.now result }
    {
        table[(4 * i + self.own_letter(p)) as usize]
    }

    // Whether the m-mer that has the first i letters of w and then w's first letters again comes out below w, or is w.
    fn caught(&self, i: u64) -> bool
        requires { i ≤ self.now.m }
        ensures { Each self.now (λ ρ w. CaughtIs ρ w i result) }
    {
        for j in 0..self.m - i {
            match self.own_entry(i + j, j, &self.states.marks) {
                Ordering::Less => return true,
                Ordering::Equal => {}
                Ordering::Greater => return false,
            }
        }
        true
    }

    // The ways to end an antemer at state i, 1 or 0, by those at the state that i falls to.
    fn end_at(&self, fallen: u64, i: u64) -> u64
        requires { i ≤ self.now.m }
        ensures { Each self.now (λ ρ w. EndIs ρ w i fallen result) }
    {
        if fallen == 0 || self.caught(i) { 0 } else { 1 }
    }

    // Below which state antemers stay: w's own letters lead from state to state until one of them is banned, or up to w itself.
    fn reach(&self) -> u64
        ensures { Each self.now (λ ρ w. ReachIs ρ w result) }
    {
        for i in 1..self.m {
            if self.own_entry(i - 1, i - 1, &self.states.ban) < NEVER {
                return i;
            }
        }
        self.m
    }

    // Writes, over zeros, for each state below `live` the ways to end an antemer there, 1 or 0; the others have none.
    // By hand: an array by value is copied, which costs 2 to 3 in 100 of a size, and is no plainer.
    fn ends(&self, live: u64, ends: &mut [u64; 64])
        requires in_range { (0 < live) × (live ≤ self.now.m) }
        requires zeros { ends.old ≡ tabulate (λ i. 0) 64 }
        ensures { Each self.now (λ ρ w. EndsAre ρ w live ends.new) }
    {
        ends[0] = 1;
        let mut fall: u64 = 0;
        for i in 1..live {
            ends[i as usize] = self.end_at(ends[fall as usize], i);
            fall = self.own_entry(fall, i, &self.states.next) as u64;
        }
    }

    // In how many rows the postmers begin with w at all: w's own letters are not banned in it while so few letters follow.
    fn lasts(&self) -> u64
        ensures { Each self.now (λ ρ w. LastsIs ρ w result) }
    {
        let mut rows = NEVER as u64;
        for j in 0..self.m {
            let left = self.own_entry(j, j, &self.states.ban) as u64;
            rows = powers::lesser(rows, left + j - self.m);
        }
        rows
    }

    // The state that each letter leads to from each state, or NOWHERE where it is banned with so many letters left. From m letters left on the same
    // letters are banned.
    fn allowed_letters(&self, left: u64) -> [u8; 128]
        requires { left < 64 }
        ensures { AllowedBy (min left self.now.m) self.now.states.now.next self.now.states.now.ban result }
    {
        let few = powers::lesser(left, self.m) as u8;
        let mut allowed = [NOWHERE; 128];
        for (c, to) in allowed.iter_mut().enumerate() {
            *to = leads_to(few, self.states.ban[c], self.states.next[c]);
        }
        allowed
    }

    // Writes the next row of a side, the ways by one letter more than are done, and gives those from the start. From the states in which no m-mer
    // can exist any more they are a power of four; a state that the start cannot reach in the rows to come is passed over.
    fn next_row(&self, side: Side, done: u64, allowed: &[u8; 128], ways: &mut [u64; 64]) -> u64
        requires whole { side.start + side.follow ≡ self.now.m }
        requires more { done < side.rows }
        requires ready { ∥ TurnReady self.now.m side.rows side.start side.follow side.live done allowed.now ways.old ∥₁ }
        ensures { Turned self.now.m side.rows side.start side.follow side.live done allowed.now ways.old ways.new result }
    {
        let r = done + 1;
        let free = self.m.saturating_sub(r + side.follow);
        let needed = powers::lesser(side.live, side.start + side.rows - done);
        ways_row(free, needed, done, allowed, ways);
        free_row(free, r, self.powers[r as usize], ways);
        ways[(r + side.start) as usize]
    }

    // The column of a side, from the ways to complete each state by no letter: row r, up to the last of so many, holds the ways to complete the
    // start by r letters. The table of allowed letters is made anew for a row where it differs from the last one.
    fn column(&self, side: Side, ways: &mut [u64; 64]) -> [u64; 31]
        requires whole { side.start + side.follow ≡ self.now.m }
        requires countable { ∥ Countable self.now.m side.rows side.start side.follow side.live ways.old self.now.states.now.next self.now.states.now.ban ∥₁ }
        ensures { CountedBy self.now.m side.rows side.start side.follow side.live ways.old self.now.states.now.next self.now.states.now.ban result }
    {
        let mut column: [u64; 31] = [0; 31];
        column[0] = ways[side.start as usize];
        let mut allowed = self.allowed_letters(1 + side.follow);
        for done in 0..side.rows {
            let r = done + 1;
            column[r as usize] = self.next_row(side, done, &allowed, ways);
            let left = r + side.follow;
            if left < self.m {
                allowed = self.allowed_letters(left + 1);
            }
        }
        column
    }

    // The column of the antemers. They are counted from state 0, with w to follow.
    fn antemers(&self) -> [u64; 31]
        ensures { Each self.now (λ ρ w. AntemersAre ρ w self.now.k self.now.m result) }
    {
        let live = self.reach();
        let side = Side {
            start: 0,
            follow: self.m,
            live,
            rows: self.k - self.m,
        };
        let mut first = [0; 64];
        self.ends(live, &mut first);
        self.column(side, &mut first)
    }

    // The column of the postmers. They are counted from state m, with nothing to follow, in the rows in which w itself is allowed.
    fn postmers(&self) -> [u64; 31]
        ensures { Each self.now (λ ρ w. PostmersAre ρ w self.now.k self.now.m result) }
    {
        let last = self.lasts();
        let live = self.m + 1;
        let side = Side {
            start: self.m,
            follow: 0,
            live,
            rows: powers::lesser(self.k - self.m, last - 1),
        };
        let mut first: [u64; 64] = [0; 64];
        free_row(live, 0, 1, &mut first);
        self.column(side, &mut first)
    }
}

// The state that a letter leads to, or NOWHERE where it is banned with so many letters left.
fn leads_to(left: u8, ban: u8, next: u8) -> u8
    ensures { result ≡ led_to left ban next }
{
    if left < ban { next } else { NOWHERE }
}

// The ways on by one letter, read in the part of the ways from `done` on: where that begins is then computed once for a row.
// By hand: how many rows are done and the allowed letters are new for each row, and the ways are written between: a record of the three would be made anew each time.
fn way(c: usize, done: u64, allowed: &[u8; 128], ways: &[u64; 64]) -> u64
    requires { WayReady c done allowed.now ways.now }
    ensures { result ≡ way_of c done allowed.now ways.now }
{
    let from = &ways[done as usize..];
    from[allowed[c] as usize]
}

// The ways on from a state, by any letter.
// By hand: four terms. Of a `sum` over a range the goals `sum-requires-clause-fits` and `returns` stay open.
fn ways_on(i: u64, done: u64, allowed: &[u8; 128], ways: &[u64; 64]) -> u64
    requires { SumReady i done allowed.now ways.now }
    ensures { result ≡ sum_of i done allowed.now ways.now }
{
    let c = (4 * i) as usize;
    let a_way = way(c, done, allowed, ways);
    let c_way = way(c + 1, done, allowed, ways);
    let g_way = way(c + 2, done, allowed, ways);
    let t_way = way(c + 3, done, allowed, ways);
    a_way + c_way + g_way + t_way
}

// Writes, for the states from `lo` to below `hi`, the ways to complete each by one letter more than stood there. State i with r letters stands
// at place r + i, where state i + 1 stood with one letter less: from the highest state down, nothing is lost that is still wanted.
fn ways_row(lo: u64, hi: u64, done: u64, allowed: &[u8; 128], ways: &mut [u64; 64])
    requires { RowReady lo hi done allowed.now ways.old }
    ensures { Written lo hi (suc done) (λ i. sum_of i done allowed.now ways.old) ways.old ways.new }
{
    for i in (lo..hi).rev() {
        let sum = ways_on(i, done, allowed, ways);
        ways[(done + 1 + i) as usize] = sum;
    }
}

// Writes the ways of the states below `free`, which are all the same, with r letters.
fn free_row(free: u64, r: u64, power: u64, ways: &mut [u64; 64])
    requires { r + free ≤ 64 }
    ensures { Written 0 free r (λ i. power) ways.old ways.new }
{
    ways[r as usize..(r + free) as usize].fill(power);
}

// The two columns of a worksheet.
// By hand: document 01 names the form, two arrays of 31 counts by value.
#[derive(Clone, Copy)]
pub struct Sheet {
    pub antemers: [u64; 31],
    pub postmers: [u64; 31],
}

// The worksheet of a word: row a holds the number of antemers of length a, and of postmers of length m + a that begin with the word; rows above
// k - m hold 0 twice. Refusals 1 to 4.
pub fn worksheet(k: u64, m: u64, key: u64, word: u64) -> Result<Sheet, Refusal>
    ensures { worked result ≡ worksheet_outcome k m key word }
{
    let states = states::prepare(k, m, key, word)?;
    let powers = powers::powers();
    let source = Source {
        k,
        m,
        states: &states,
        powers: &powers,
    };
    Ok(Sheet {
        antemers: source.antemers(),
        postmers: source.postmers(),
    })
}
