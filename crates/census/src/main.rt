// The census: for every k up to 8 and every m up to k, goes through every k-mer, finds its vigemin by a plain loop, and tallies the words. With that
// it compares the operations: each vigemin, the size of every word, and some shelves by pages. It prints a line for each k; where something
// differs it says what, and stops.
#![tactic(auto)]

ghost use Rattle.std.specs.Prelude.{◌+◌, ◌<◌, ◌≤◌, length, All};

use refusals::Refusal;
use std::{fmt, io, iter};

// The greatest k.
const MOST_LETTERS: u64 = 8;

// How many k-mers, or words, of at most 8 letters there are.
const MOST: usize = 65536;

// 4^n, for n from 1 to 8.
// By hand: the census counts on its own, by no table of the library, and 4^n as a shift would ask at each call that n is small.
fn power(n: u64) -> u64
    ensures { (4 ≤ result) × (result ≤ 65536) }
{
    match n {
        1 => 4,
        2 => 16,
        3 => 64,
        4 => 256,
        5 => 1024,
        6 => 4096,
        7 => 16384,
        _ => 65536,
    }
}

// Something differs, and what it is was told.
#[derive(Clone, Copy)]
struct Differs;

// ---- drawn numbers

// The state of a linear congruential generator on 64 bits.
#[derive(Clone, Copy)]
struct Generator(u64);

impl Generator {
    // The generator with its next state.
    fn advanced(self) -> Self {
        Generator(
            self.0
                .wrapping_mul(6364136223846793005)
                .wrapping_add(1442695040888963407),
        )
    }

    // A number below `bound`, of the highest 16 bits of the state.
    fn drawn(self, bound: u64) -> u64
        requires { 1 ≤ bound }
    {
        (self.0 >> 48) % bound
    }
}

// ---- keys and words

// How many keys are tried: all where there are at most 64, else 8.
fn key_count(words: u64) -> u64
    ensures { result ≤ 64 }
{
    if words <= 64 { words } else { 8 }
}

// The n-th key that is tried: where not all are, the first, the last, ATAT.., which is a fifth of the words, AT..T, the last that begins with A, and
// drawn ones.
// By hand: a match, since a list of keys would draw them all before the first is tried, and each is drawn by the state of its turn.
fn nth_key(n: u64, words: u64, generator: Generator) -> u64
    requires { 4 ≤ words }
{
    if words <= 64 {
        return n;
    }
    match n {
        0 => 0,
        1 => words - 1,
        2 => words / 5,
        3 => words / 4 - 1,
        _ => generator.drawn(words),
    }
}

// ---- the settings

// The settings, but for the word.
#[derive(Clone, Copy)]
struct Settings {
    k: u64,
    m: u64,
    key: u64,
    ghost in_range: { (m ≤ k) × (k ≤ 8) },
}

impl fmt::Display for Settings {
    fn fmt<W: fmt::Write>(&self, f: &mut fmt::Formatter<W>) -> fmt::Result {
        let Settings { k, m, key } = *self;
        write!(f, "k={k} m={m} key={key}")
    }
}

// A word of at most 8 letters, and its position in a k-mer.
// By hand: the census counts on its own, so what it finds is not told in the library's `vigemins::Found`.
#[derive(Clone, Copy)]
struct Mer {
    word: u64,
    position: u64,
    ghost in_range: { word < 65536 },
}

impl Settings {
    // The m-mer of a k-mer at a position.
    fn mer(self, kmer: u64, position: u64) -> Mer
        requires { position + self.m ≤ self.k }
    {
        let behind = self.k - self.m - position;
        Mer {
            word: (kmer >> (2 * behind)) % power(self.m),
            position,
        }
    }

    // The vigemin of a k-mer, by its definition: each m-mer is cut out, from the left, and kept where its keyed form is less than that of the one kept
    // before.
    fn plain_vigemin(self, kmer: u64) -> Mer {
        let mut least = self.mer(kmer, 0);
        for position in 1..=self.k - self.m {
            let mer = self.mer(kmer, position);
            if mer.word ^ self.key < least.word ^ self.key {
                least = mer;
            }
        }
        least
    }

    // The four words whose shelves are listed: the key, which comes first once keyed; two drawn ones, which begin with C and with G once keyed; and the
    // word that comes last.
    fn listed_words(self, generator: Generator) -> [u64; 4] {
        let words = power(self.m);
        let quarter = words / 4;
        [
            self.key,
            self.key ^ quarter ^ generator.drawn(quarter),
            self.key ^ (2 * quarter) ^ generator.advanced().drawn(quarter),
            self.key ^ (words - 1),
        ]
    }
}

// ---- shelves

// The k-mers whose vigemin is a word, in increasing order, at the front of a table. Of each k-mer `found` has the word of its vigemin.
fn list<'a>(word: u64, found: &[u64], shelf: &'a mut [u64; MOST]) -> &'a [u64]
    requires { length found.now ≤ MOST }
    ensures { length result.now ≤ MOST }
{
    let kmers = found
        .iter()
        .enumerate()
        .filter(|(_, other)| **other == word);
    for ((kmer, _), entry) in kmers.zip(shelf.iter_mut()) {
        *entry = kmer as u64;
    }
    let size = found.iter().filter(|other| **other == word).count();
    &shelf[..size]
}

// How many k-mers the rooms take that a shelf is gone through with: one, two and seven 64th parts of it and more, which is 1, 2 and 7 where it has fewer
// than 64 k-mers; and the whole.
fn rooms(size: usize) -> [usize; 4]
    requires { size ≤ MOST }
    ensures { All (λ takes. takes ≤ MOST) result }
{
    let part = size / 64 + 1;
    [part, 2 * part, 7 * part, size]
}

// What no word and no k-mer of at most 8 letters is.
// By hand: document 01's page writes numbers into its room, so a number that is no k-mer marks an entry that was left alone.
const BLANK: u64 = 65536;

// ---- what is compared under one key

// The settings, and the runtime that what differs is told to.
#[derive(Drop)]
struct Comparison<'a, R> {
    rt: &'a R,
    settings: Settings,
}

impl<R: Print> Comparison<'_, R> {
    // Compares what an operation answered, of a k-mer or a word, with what was counted: it must have refused nothing.
    fn same(
        &self,
        what: &str,
        of: u64,
        answered: Result<u64, Refusal>,
        counted: u64,
    ) -> Result<(), Differs> {
        if answered == Ok(counted) {
            return Ok(());
        }
        let (refusal, answer) = match answered {
            Ok(answer) => (0, answer),
            Err(refusal) => (refusal.number(), 0),
        };
        let settings = self.settings;
        let _told = println!(self.rt;
            "{what} differs: {settings}, of {of}: refusal {refusal}, answer {answer}, counted {counted}"
        );
        Err(Differs)
    }

    // The vigemin of a k-mer, where the operation finds it.
    fn vigemin(&self, kmer: u64) -> Result<Mer, Differs> {
        let Settings { k, m, key } = self.settings;
        let mer = self.settings.plain_vigemin(kmer);
        let found = vigemins::vigemin(k, m, key, kmer);
        let word = found.map(|found| found.word);
        let position = found.map_or(0, |found| found.position);
        let right = self.same("vigemin", kmer, word, mer.word);
        let placed = self.same("position of the vigemin", kmer, Ok(position), mer.position);
        right?;
        placed?;
        Ok(mer)
    }

    // Finds the vigemin of every k-mer, and tallies the words, where the operation finds the same.
    fn vigemins(&self, found: &mut [u64], tally: &mut [u64; MOST]) -> Result<(), Differs> {
        for (kmer, found) in found.iter_mut().enumerate() {
            let Mer { word, .. } = self.vigemin(kmer as u64)?;
            *found = word;
            tally[word as usize] = tally[word as usize].wrapping_add(1);
        }
        Ok(())
    }

    // Compares the size of a word with what was counted.
    fn size(&self, word: u64, counted: u64) -> Result<(), Differs> {
        let Settings { k, m, key } = self.settings;
        self.same("size", word, sizes::size(k, m, key, word), counted)
    }

    // Compares the size of every word with its tally; and the sizes must add up to 4^k.
    fn sizes(&self, tally: &[u64]) -> Result<(), Differs> {
        let mut sum = 0u64;
        for (word, counted) in tally.iter().enumerate() {
            self.size(word as u64, *counted)?;
            sum = sum.wrapping_add(*counted);
        }
        let words = tally.len() as u64;
        self.same("sum of the sizes", words, Ok(sum), power(self.settings.k))
    }

    // Compares what a page from a place of the shelf on writes with the k-mers that are due, in a room that is blank before and after.
    fn page(&self, word: u64, start: usize, due: &[u64], room: &mut [u64]) -> Result<(), Differs> {
        let Settings { k, m, key } = self.settings;
        let paged = shelves::page(k, m, key, word, start as u64, room);
        let wanted = due.iter().copied().chain(iter::repeat(BLANK));
        let right = room
            .iter()
            .zip(wanted)
            .take_while(|(entry, wanted)| **entry == *wanted)
            .count() as u64;
        room.fill(BLANK);
        let written = self.same("number written by a page", word, paged, due.len() as u64);
        let entries = room.len() as u64;
        let all = self.same("right entries of a page", word, Ok(right), entries);
        written?;
        all
    }

    // Goes through the shelf of a word by pages, each from where the last one stopped, until none is left and a page writes none. The room takes at least
    // one k-mer, unless the shelf has none. Answers the number of pages.
    fn pages(&self, word: u64, shelf: &[u64], room: &mut [u64]) -> Result<u64, Differs> {
        let mut left = shelf;
        let mut pages = 0;
        // By hand: `chunks` takes no length 0, and gives no empty page behind the last, which is asked for here too.
        loop {
            let (due, rest) = left.split_at(left.len().min(room.len()));
            self.page(word, shelf.len() - left.len(), due, room)?;
            pages += 1;
            if due.is_empty() {
                return Ok(pages);
            }
            left = rest;
        }
    }

    // Goes through the shelves of four words, with each room; each shelf is listed in the table. Answers the number of pages.
    fn shelves(
        &self,
        found: &[u64],
        table: &mut [u64; MOST],
        generator: Generator,
    ) -> Result<u64, Differs>
        requires { length found.now ≤ MOST }
    {
        let mut room = [BLANK; MOST];
        let mut pages = 0u64;
        for word in self.settings.listed_words(generator) {
            let shelf = list(word, found, table);
            for takes in rooms(shelf.len()) {
                pages = pages.wrapping_add(self.pages(word, shelf, &mut room[..takes])?);
            }
        }
        Ok(pages)
    }

    // Compares all under the key. Answers the number of pages. Once the sizes are compared, the table of the tally takes the shelves.
    fn all(&self, generator: Generator) -> Result<u64, Differs> {
        let mut found = [0; MOST];
        let mut tally = [0; MOST];
        let kmers = power(self.settings.k) as usize;
        let words = power(self.settings.m) as usize;
        self.vigemins(&mut found[..kmers], &mut tally)?;
        self.sizes(&tally[..words])?;
        self.shelves(&found[..kmers], &mut tally, generator)
    }
}

// ---- the census

// Compares all under each key that is tried. Answers the number of pages.
fn compare_keys(rt: &impl Print, k: u64, m: u64) -> Result<u64, Differs>
    requires { (m ≤ k) × (k ≤ 8) }
{
    let words = power(m);
    // a start of its own for each k and m
    let mut generator = Generator(power(k) + words);
    let mut pages = 0u64;
    for n in 0..key_count(words) {
        generator = generator.advanced();
        let key = nth_key(n, words, generator);
        generator = generator.advanced();
        let settings = Settings { k, m, key };
        pages = pages.wrapping_add(Comparison { rt, settings }.all(generator)?);
    }
    Ok(pages)
}

// What agreed for a k; under each key that is four shelves.
#[derive(Clone, Copy)]
struct Agreed {
    k: u64,
    keys: u64,
    vigemins: u64,
    sizes: u64,
    shelves: u64,
    pages: u64,
}

impl fmt::Display for Agreed {
    fn fmt<W: fmt::Write>(&self, f: &mut fmt::Formatter<W>) -> fmt::Result {
        let Agreed {
            k,
            keys,
            vigemins,
            sizes,
            shelves,
            pages,
        } = *self;
        write!(
            f,
            "k={k}: {keys} keys, {vigemins} vigemins, {sizes} sizes, and {shelves} shelves in {pages} pages agree"
        )
    }
}

// Compares all for a k. Under each key there are 4^k vigemins, 4^m sizes and four shelves.
fn compare(rt: &impl Print, k: u64) -> Result<Agreed, Differs>
    requires { k ≤ 8 }
{
    let mut keys = 0u64;
    let mut sizes = 0u64;
    let mut pages = 0u64;
    for m in 1..=k {
        pages = pages.wrapping_add(compare_keys(rt, k, m)?);
        let words = power(m);
        let tried = key_count(words);
        keys = keys.wrapping_add(tried);
        sizes = sizes.wrapping_add(tried * words);
    }
    Ok(Agreed {
        k,
        keys,
        vigemins: keys.wrapping_mul(power(k)),
        sizes,
        shelves: keys.wrapping_mul(4),
        pages,
    })
}

fn main(rt: HostRuntime) -> io::Result<()> {
    for k in 1..=MOST_LETTERS {
        let Ok(agreed) = compare(&rt, k) else {
            return Ok(());
        };
        println!(rt; "{agreed}")?;
    }
    Ok(())
}
