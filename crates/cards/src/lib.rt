// The shelf printer's whole answer, from the bytes that were read: the card of a shelf. Assumes nothing.
#![tactic(auto)]

ghost use Rattle.std.specs.Prelude.{◌≡◌, ℕ, List, [], ◌∷◌, ◌++◌, map, ◌≤◌, ◌<◌, ◌+◌, ◌*◌, length, take, MatchResult};
ghost use Rattle.definitions.specs.Words.{word as word_of, text as written};
ghost use Rattle.definitions.specs.Cards.{decimal as decimal_text, entries, settings, card_outcome};
ghost use Rattle.refusals.specs.Numbers.{number_of};
ghost use Rattle.lines.specs.Answers.{asked_of};
ghost use Rattle.cards.specs.Texts.{IsText, IsWord, IsAsked, AreKmers, refused_text, IsShown, IsRefused};
ghost use Rattle.cards.specs.Answers.{printed};

use lines::Line;
use refusals::Refusal;
use std::marker::Model;

// ---- the text that is written, part by part

// A text of at most 664 bytes, at the front of as many, with zeros behind it.
// By hand: a library crate has no heap for a `String`, and a crate of the kit for fixed text would be one more to trust.
#[derive(Drop)]
struct Text {
    bytes: [u8; 664],
    length: usize,
}

impl Model for Text {
    ghost Value = { List ℕ };

    ghost view = { λ t. take t.length t.bytes };

    ghost invariant = { λ t. IsText t.length t.bytes };
}

impl Text {
    // No text yet.
    fn new() -> Self
        ensures { result ≡ [] }
    {
        Text {
            bytes: [0; 664],
            length: 0,
        }
    }

    // Writes some bytes.
    fn lay(&mut self, bytes: &[u8])
        requires { length self.old + length bytes.now ≤ 664 }
        ensures text { self.new ≡ self.old ++ bytes.now }
        ensures grows { length self.new ≡ length self.old + length bytes.now }
    {
        let end = self.length + bytes.len();
        self.bytes[self.length..end].copy_from_slice(bytes);
        self.length = end;
    }

    // Writes a number in decimal: its tenth part, if it has one, and the last digit.
    // By hand: no clause of `write!` promises Ok, and a card always has its text; a crate of the kit for decimals would be one more to trust.
    fn decimal(&mut self, number: u64)
        requires { length self.old + 20 ≤ 664 }
        ensures text { self.new ≡ self.old ++ decimal_text number }
        ensures grows { length self.new ≤ length self.old + 20 }
        ensures grows_short { number < 100 → length self.new ≤ length self.old + 2 }
    {
        if 10 <= number {
            self.decimal(number / 10);
        }
        self.lay(&[b'0' + (number % 10) as u8]);
    }

    // Writes the letters of a word.
    fn letters(&mut self, n: u64, word: u64)
        requires is_word { IsWord n word }
        requires room { length self.old + n ≤ 664 }
        ensures text { self.new ≡ self.old ++ written (word_of n word) }
        ensures grows { length self.new ≡ length self.old + n }
    {
        let mut letters = [0; 31];
        words::unpack(word, n, &mut letters).unwrap();
        self.lay(&letters[..n as usize]);
    }

    // Writes the line of the settings and the size.
    fn head(&mut self, line: &Line, size: u64)
        requires is_asked { IsAsked (asked_of line.now) }
        requires room { length self.old + 104 ≤ 664 }
        ensures text { self.new ≡ self.old ++ settings (asked_of line.now) size }
        ensures grows { length self.new ≤ length self.old + 104 }
    {
        self.lay(b"k=");
        self.decimal(line.k);
        self.lay(b" key=");
        self.letters(line.m, line.key);
        self.lay(b" word=");
        self.letters(line.m, line.word);
        self.lay(b" size=");
        self.decimal(size);
        self.lay(b"\n");
    }

    // Writes the line of a k-mer: its place and its letters.
    fn entry(&mut self, place: usize, k: u64, kmer: u64)
        requires is_word { IsWord k kmer }
        requires place { place < 16 }
        requires room { length self.old + 35 ≤ 664 }
        ensures text { self.new ≡ self.old ++ entries place (word_of k kmer ∷ []) }
        ensures grows { length self.new ≤ length self.old + 35 }
    {
        self.decimal(place as u64);
        self.lay(b" ");
        self.letters(k, kmer);
        self.lay(b"\n");
    }

    // Writes a line for each of some k-mers.
    fn list(&mut self, k: u64, kmers: &[u64])
        requires are_kmers { AreKmers k kmers.now }
        requires room { length self.old + 35 * length kmers.now ≤ 664 }
        ensures { self.new ≡ self.old ++ entries 0 (map (word_of k) kmers.now) }
    {
        for (place, kmer) in kmers.iter().enumerate() {
            self.entry(place, k, *kmer);
        }
    }
}

// ---- the answer

// The text of a shelf's card: the settings and the size, then place and k-mer for the first 16, or for all if there are fewer. Refusals 10, then
// 1 to 4.
fn shown(input: &[u8]) -> Result<Text, Refusal>
    ensures { MatchResult result (IsShown input.now) (IsRefused input.now) }
{
    let line = lines::read(input)?;
    let size = sizes::size(line.k, line.m, line.key, line.word)?;
    let mut kmers = [0; 16];
    let n = shelves::page(line.k, line.m, line.key, line.word, 0, &mut kmers)?;
    let mut text = Text::new();
    text.head(&line, size);
    text.list(line.k, &kmers[..n as usize]);
    Ok(text)
}

// The text of a refusal.
fn refused(refusal: Refusal) -> Text
    ensures { result ≡ refused_text (number_of refusal) }
{
    let mut text = Text::new();
    text.lay(b"refused ");
    text.decimal(refusal.number());
    text.lay(b"\n");
    text
}

// What the printer prints: the refusal, the length of the text, and the text, with zeros behind it.
// By hand: the text and its length are fixed memory, since a library crate has no heap.
#[derive(Clone, Copy)]
pub struct Printed {
    pub refusal: Option<Refusal>,
    pub length: usize,
    pub text: [u8; 664],
}

// The card of a shelf, from the input that names it: its text, or the line of a refusal. Refusals 10, then 1 to 4. That the text is a part of the
// array is told besides, for whoever cuts it out.
pub fn card(input: &[u8]) -> Printed
    ensures outcome { printed result ≡ card_outcome input.now }
    ensures inside { result.length ≤ length result.text }
{
    let (refusal, text) = match shown(input) {
        Ok(text) => (None, text),
        Err(refusal) => (Some(refusal), refused(refusal)),
    };
    let Text { bytes, length } = text;
    Printed {
        refusal,
        length,
        text: bytes,
    }
}
