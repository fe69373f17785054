// Scans: for each window of a sequence the position of its vigemin in the whole sequence, written as positions or as bytes. Assumes nothing.
#![tactic(auto)]

ghost use Rattle.std.specs.Prelude.{[], ◌∷◌, ◌≡◌, suc, ◌+◌, ◌-◌, ◌*◌, ◌/◌, ◌≤◌, ◌<◌, ℕ, List, length, get_or, drop};
ghost use Rattle.std.proofs.Common.{rules};
ghost use Rattle.std.proofs.lemmas.List.Edits.{sets};
ghost use Rattle.definitions.specs.Words.{spelled, bytes};
ghost use Rattle.definitions.specs.Lists.{over};
ghost use Rattle.definitions.specs.Outcomes.{scan_outcome, scan_bytes_outcome};
ghost use Rattle.laws.specs.Accepted.{OrderAccepted};
ghost use Rattle.laws.specs.Filters.{joined};
ghost use Rattle.laws.specs.Rolls.{rolled};
ghost use Rattle.sequences.specs.Answers.{examined, examine_outcome};
ghost use Rattle.scans.specs.Answers.{scanned, positions_written};
ghost use Rattle.scans.specs.Readings.{Entries, Suffixes, Prepared, SetTo, keyed_word, brings, Tabled, Rolled, Readable, Fresh, Begun, Read, ReadTo, ReadBoth, Writable, positions_of};

use refusals::Refusal;

// The largest number of 64 bits: no stamp is above it.
// By hand: so the least of no stamps is a number, and a minimum tests nothing.
const TOP: u64 = u64::MAX;

// What room is made of: so many entries in a row stand for a position.
trait Entry: Copy {
    // How many.
    const EACH: u64;

    ghost EACH: { ℕ };

    // Which.
    ghost entries: { ℕ → List Self };

    // Writes the entries for the position of window i behind those for the windows before it.
    fn put(position: u64, i: u64, room: &mut [Self])
        requires small { position < 65536 }
        requires fits { EACH * i + EACH ≤ length room.old }
        ensures { room.new ≡ sets room.old (EACH * i) (entries position) };

    // They are some, and for each position as many.
    ghost some: { 0 < EACH };

    ghost even: { (p : ℕ) → length (entries p) ≡ EACH };
}

// A position as it is.
impl Entry for u32 {
    const EACH: u64 = 1;

    ghost EACH = { 1 };

    ghost entries = { λ p. p ∷ [] };

    ghost some = { Prim.search rules };

    ghost even = { Prim.search rules };

    fn put(position: u64, i: u64, room: &mut [u32]) {
        room[i as usize] = position as u32;
    }
}

// A position as four bytes, high first.
impl Entry for u8 {
    const EACH: u64 = 4;

    ghost EACH = { 4 };

    ghost entries = { bytes 4 };

    ghost some = { Prim.search rules };

    ghost even = { Prim.search rules };

    fn put(position: u64, i: u64, room: &mut [u8]) {
        // By hand: with `to_be_bytes` and `copy_from_slice` a scan takes 1.152 times the tuned scan in one run (2.58 ns a letter to 2.24), and so 1.09; at most 1.15 is asked.
        let place = (4 * i) as usize;
        room[place] = (position / 16777216 % 256) as u8;
        room[place + 1] = (position / 65536 % 256) as u8;
        room[place + 2] = (position / 256 % 256) as u8;
        room[place + 3] = (position % 256) as u8;
    }
}

// Turns each of the first entries of two rings into the least of those from its place on. Both go in one
// loop, so that one goes on while the other waits for its last minimum.
fn suffixes(width: u64, left: &mut [u64; 32], right: &mut [u64; 32])
    requires { Entries width left.old × Entries width right.old }
    ensures left { Suffixes width left.old left.new }
    ensures right { Suffixes width right.old right.new }
{
    let last = (width - 1) as usize;
    let mut least = left[last];
    let mut other = right[last];
    for i in (0..last).rev() {
        least = powers::lesser(left[i], least);
        left[i] = least;
        other = powers::lesser(right[i], other);
        right[i] = other;
    }
}

// What a scan is set to: k, m and the key; how many m-mers a window has; and the side of a stamp, which is 4^(32 - m). A stamp is a value times
// the side plus a place below the side: the lesser of two stamps is that of the lesser value and, of equals, of the leftmost. An m-mer is kept as its
// value times the side, that is keyed and with its first letter in the highest bits; `high` is the key there.
#[derive(Clone, Copy)]
struct Settings {
    k: u64,
    m: u64,
    key: u64,
    width: u64,
    side: u64,
    high: u64,
}

impl Settings {
    // The settings of a scan.
    fn new(k: u64, m: u64, key: u64) -> Settings
        requires { OrderAccepted k m key }
        ensures { SetTo k m key result }
    {
        let rest = 32 - m;
        let side = powers::power(rest);
        Settings {
            k,
            m,
            key,
            width: k - m + 1,
            side,
            high: key * side,
        }
    }

    // What a letter brings into a kept m-mer that was shifted, by XOR: its own sum with the key, and the shifted key, which is so taken out again.
    fn brought(self, letter: u64) -> u64
        requires { Prepared self × (letter < 4) }
        ensures { result ≡ brings self letter }
    {
        let last = letter * self.side;
        vigemins::value(last, self.high) ^ (self.high << 2)
    }

    // Writes at the byte of each letter what it brings, so that a byte is looked up as it is. T is byte 84, so 85 entries take every letter.
    fn set_table(self, table: &mut [u64; 85])
        requires { Prepared self × (length table.old ≡ 85) }
        ensures { Tabled self table.new }
    {
        table[b'A' as usize] = self.brought(0);
        table[b'C' as usize] = self.brought(1);
        table[b'G' as usize] = self.brought(2);
        table[b'T' as usize] = self.brought(3);
    }
}

// What a run of windows has read up to a window: the m-mer read last, and the least stamp of the m-mers read after the window's block.
#[derive(Clone, Copy)]
struct Run {
    word: u64,
    least: u64,
}

// Two runs of windows that are read side by side, so that one goes on while the other waits for its last minimum; the right one begins with the window
// `from`. The m-mers of each go by blocks of a window's width. The left run's block starts at `block`, the right run's at `block + from`, and both windows
// begin `at` behind the start of theirs.
// By hand: the rings are lent beside it. The runs are answered as a new value, and the rings are written in place; in one record a reader could not tell which.
#[derive(Clone, Copy)]
struct Runs {
    from: u64,
    block: u64,
    at: u64,
    left: Run,
    right: Run,
}

// A sequence that a scan reads, what the scan is set to, and the table of what the byte of each letter brings.
#[derive(Clone, Copy)]
struct Reading<'a> {
    settings: Settings,
    table: &'a [u64; 85],
    seq: &'a [u8],
    ghost tabled: { Tabled settings table.now },
    ghost readable: { Readable settings seq.now },
}

impl<'a> Reading<'a> {
    // The m letters read last, once the one at a place is read: one letter goes out, past the highest bits, and one comes in.
    fn roll(&self, word: u64, place: u64) -> u64
        requires { place < length self.now.seq.now }
        ensures { Rolled self.now.settings word (get_or self.now.seq.now place 0) result }
    {
        let byte = self.seq[place as usize];
        (word << 2) ^ self.table[byte as usize]
    }

    // Reads all letters but the last of the m-mer at a place.
    fn start(&self, from: u64) -> u64
        requires { from + self.now.settings.k ≤ length self.now.seq.now }
        ensures { result ≡ keyed_word self.now.settings (rolled self.now.settings.m (drop from (spelled self.now.seq.now)) (self.now.settings.m - 1)) }
    {
        let mut word = self.settings.high;
        for i in 0..self.settings.m - 1 {
            word = self.roll(word, from + i);
        }
        word
    }

    // Writes the stamps of the m-mers of the window at a place into an empty ring, and answers the last m-mer.
    fn fill(&self, from: u64, ring: &mut [u64; 32]) -> u64
        requires inside { from + self.now.settings.k ≤ length self.now.seq.now }
        requires fresh { Fresh self.now.settings.width ring.old }
        ensures { Begun self.now.settings self.now.seq.now from result self.now.settings.width ring.new }
    {
        let before = from + self.settings.m - 1;
        let mut word = self.start(from);
        for at in 0..self.settings.width {
            word = self.roll(word, before + at);
            ring[at as usize] = word + at;
        }
        word
    }

    // Reads the first window of each run: the first of all for the left one, and the one at `from` for the right one.
    fn begin(&self, from: u64, left: &mut [u64; 32], right: &mut [u64; 32]) -> Runs
        requires inside { from + self.now.settings.k ≤ length self.now.seq.now }
        requires fresh { Fresh self.now.settings.width left.old × Fresh self.now.settings.width right.old }
        ensures read_both { ReadBoth self.now.settings self.now.seq.now result left.new right.new }
        ensures at_start { (result.from ≡ from) × (result.block + result.at ≡ 0) }
    {
        let word = self.fill(0, left);
        let other = self.fill(from, right);
        suffixes(self.settings.width, left, right);
        Runs {
            from,
            block: 0,
            at: 0,
            left: Run { word, least: TOP },
            right: Run {
                word: other,
                least: TOP,
            },
        }
    }

    // Where a whole block was read after the last one, it becomes the last one.
    fn turned(&self, r: Runs, left: &mut [u64; 32], right: &mut [u64; 32]) -> Runs
        requires { ReadBoth self.now.settings self.now.seq.now r left.old right.old }
        ensures read_both { ReadBoth self.now.settings self.now.seq.now result left.new right.new }
        ensures inside { result.at < self.now.settings.width }
        ensures same { (result.from ≡ r.from) × (result.block + result.at ≡ r.block + r.at) }
    {
        if r.at == self.settings.width {
            suffixes(self.settings.width, left, right);
            return Runs {
                block: r.block + self.settings.width,
                at: 0,
                left: Run {
                    least: TOP,
                    ..r.left
                },
                right: Run {
                    least: TOP,
                    ..r.right
                },
                ..r
            };
        }
        r
    }

    // Reads the letter at a place, behind the window that a run read last, where its block has m-mers left to be read after it. For the least the place
    // of a stamp is counted from the block before, as the places are that are left in the ring.
    fn step(&self, place: u64, at: u64, r: Run, ring: &mut [u64; 32]) -> Run
        requires read { ReadTo self.now.settings self.now.seq.now place at r ring.old }
        requires inside { (at < self.now.settings.width) × (place < length self.now.seq.now) }
        ensures { ReadTo self.now.settings self.now.seq.now (place + 1) (at + 1) result ring.new }
    {
        let word = self.roll(r.word, place);
        let stamp = word + at;
        ring[at as usize] = stamp;
        let far = stamp + self.settings.width;
        Run {
            word,
            least: powers::lesser(r.least, far),
        }
    }

    // Reads the window after window i of each run, which is the last one.
    fn next_windows(&self, r: Runs, i: u64, left: &mut [u64; 32], right: &mut [u64; 32]) -> Runs
        requires read_both { ReadBoth self.now.settings self.now.seq.now r left.old right.old }
        requires last { r.block + r.at ≡ i }
        requires more { r.from + i + self.now.settings.k < length self.now.seq.now }
        ensures read_both { ReadBoth self.now.settings self.now.seq.now result left.new right.new }
        ensures at_next { (result.from ≡ r.from) × (result.block + result.at ≡ i + 1) }
    {
        let place = i + self.settings.k;
        let t = self.turned(r, left, right);
        let one = self.step(place, t.at, t.left, left);
        let other = self.step(place + t.from, t.at, t.right, right);
        Runs {
            at: t.at + 1,
            left: one,
            right: other,
            ..t
        }
    }

    // The position of the vigemin of the window read last: the lesser of what is left of the block and what was read after it has its place.
    fn position(&self, block: u64, at: u64, r: Run, ring: &[u64; 32]) -> u64
        requires { Read self.now.settings self.now.seq.now block at r ring.now }
        ensures small { result < 65536 }
        ensures value { result ≡ get_or (positions_of self.now.settings self.now.seq.now) (block + at) 0 }
    {
        let lowest = powers::lesser(ring[at as usize], r.least);
        block + (lowest & (self.settings.side - 1))
    }

    // Writes the positions for the window i of each run. The second is read from its ring once the first is put: the compiler then makes one store of
    // the four bytes of each, and would else make eight stores of a byte.
    fn put_both<E: Entry>(
        &self,
        r: Runs,
        i: u64,
        left: &[u64; 32],
        right: &[u64; 32],
        room: &mut [E],
    )
        requires read_both { ReadBoth self.now.settings self.now.seq.now r left.now right.now }
        requires last { r.block + r.at ≡ i }
        requires fits { E.EACH * (r.from + i) + E.EACH ≤ length room.old }
        ensures { room.new ≡ sets (sets room.old (E.EACH * i) (E.entries (get_or (positions_of self.now.settings self.now.seq.now) i 0))) (E.EACH * (r.from + i)) (E.entries (get_or (positions_of self.now.settings self.now.seq.now) (r.from + i) 0)) }
    {
        E::put(self.position(r.block, r.at, r.left, left), i, room);
        E::put(
            self.position(r.block + r.from, r.at, r.right, right),
            r.from + i,
            room,
        );
    }
}

// Writes the position for each window at the front of the room. Where the number of windows is odd, the runs share the one in the middle.
fn write<E: Entry>(s: Settings, seq: &[u8], windows: u64, room: &mut [E])
    requires { Writable s seq.now windows E.EACH (length room.old) }
    ensures { room.new ≡ over (joined E.entries (positions_of s seq.now)) room.old }
{
    let mut table: [u64; 85] = [0; 85];
    s.set_table(&mut table);
    let reading = Reading {
        settings: s,
        table: &table,
        seq,
    };
    let mut left: [u64; 32] = [TOP; 32];
    let mut right: [u64; 32] = [TOP; 32];
    let half = (windows + 1) / 2;
    let mut r = reading.begin(windows - half, &mut left, &mut right);
    reading.put_both(r, 0, &left, &right, room);
    for i in 0..half - 1 {
        r = reading.next_windows(r, i, &mut left, &mut right);
        reading.put_both(r, i + 1, &left, &right, room);
    }
}

// The scan of a sequence into room of any entries: how many windows there are.
fn scan_into<E: Entry>(k: u64, m: u64, key: u64, seq: &[u8], room: &mut [E]) -> Result<u64, Refusal>
    ensures examined { examined result ≡ examine_outcome k m key seq.now (length room.old / E.EACH) }
    ensures written { room.new ≡ over (joined E.entries (positions_written k m key seq.now result)) room.old }
{
    let windows = sequences::examine(k, m, key, seq, room.len() as u64 / E::EACH)?;
    if windows != 0 {
        write(Settings::new(k, m, key), seq, windows, room);
    }
    Ok(windows)
}

// The scan of a sequence: for each window the position of its vigemin in the whole sequence. Refusals 1, 2, 3, 5, 6, 7.
pub fn scan(k: u64, m: u64, key: u64, seq: &[u8], room: &mut [u32]) -> Result<u64, Refusal>
    ensures { scanned result room.new ≡ scan_outcome k m key seq.now room.old }
{
    scan_into(k, m, key, seq, room)
}

// The scan of a sequence into bytes: each position as four bytes, high first. Refusals 1, 2, 3, 5, 6, 7.
pub fn scan_bytes(k: u64, m: u64, key: u64, seq: &[u8], room: &mut [u8]) -> Result<u64, Refusal>
    ensures { scanned result room.new ≡ scan_bytes_outcome k m key seq.now room.old }
{
    scan_into(k, m, key, seq, room)
}
