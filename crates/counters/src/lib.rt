// The plain counter of antemers, with no table: the rules as document 01 states them, with R, Σ and T, on the numbers of the key and the word.
// It stands beside the worksheet, whose row k - m it equals. Assumes nothing.
//
// As in document 01 letters are counted from 1: a1..am is the word, c1..cm the key. Antemers are split by i, the length of the longest prefix
// that they share with the word.
#![tactic(auto)]

ghost use Rattle.std.specs.Prelude.{◌≡◌, true, ◌+◌, ◌-◌, ◌≤◌, ◌<◌, length, take};
ghost use Rattle.std.specs.Ordering.{is_eq, is_gt};
ghost use Rattle.definitions.specs.Lists.{filter};
ghost use Rattle.definitions.specs.Words.{letters};
ghost use Rattle.definitions.specs.Outcomes.{counter_outcome};
ghost use Rattle.laws.specs.Prefixes.{sharing, sharing_from};
ghost use Rattle.laws.specs.Rules.{own, R, Σ, banned as bannedBy, restrained as mayFollow, T};
ghost use Rattle.powers.specs.Signs.{signed};
ghost use Rattle.counters.specs.Settings.{is_below_at, is_hindered, is_tied, SetTo, Served};
ghost use Rattle.counters.specs.Answers.{counted};

use refusals::Refusal;
use std::cmp::Ordering;

// What antemers are counted for: a key and a word of m letters.
#[derive(Clone, Copy)]
struct Setting {
    m: u64,
    key: u64,
    word: u64,
    ghost set_to: { SetTo m key word },
}

impl Setting {
    ghost use Rattle.counters.specs.Readings.{ranking, own_word, is_antemer};

    // R(i,j): the sign of aj..ai against the word's first letters, as many, both combined with the key's first ones. With j = i + 1 there are no
    // letters, which are equal.
    fn compared(self, i: u64, j: u64) -> Ordering
        requires { (0 < j) × (j ≤ i + 1) × (i ≤ self.m) }
        ensures { result ≡ signed (R (ranking self) (own_word self) i j) }
    {
        let length = i + 1 - j;
        let stretch = (self.word >> (2 * (self.m - i))) % powers::power(length);
        let rest = 2 * (self.m - length);
        let first = self.word >> rest;
        let key_first = self.key >> rest;
        powers::sign(stretch ^ key_first, first ^ key_first)
    }

    // The sign of a letter against ai, both combined with ci: above where it lies in the special alphabet Σi, equal where it is ai.
    // By hand: that a letter is below 4 and i within the word is asked by each function that takes one: both are numbers that are counted up, and a type would be made of each at each turn.
    fn letter_sign(self, i: u64, letter: u64) -> Ordering
        requires { (0 < i) × (i ≤ self.m) × (letter < 4) }
        ensures special { is_gt result ≡ Σ (ranking self) (own_word self) i letter }
        ensures same { is_eq result ≡ own (own_word self) i letter }
    {
        let shift = 2 * (self.m - i);
        let own = (self.word >> shift) % 4;
        let key_letter = (self.key >> shift) % 4;
        powers::sign(letter ^ key_letter, own ^ key_letter)
    }

    // How many letters Σ1 has: ranks go from 0 to 3, and so many lie above the rank of a1, which is its sum with c1.
    fn first_alphabet(self) -> u64
        ensures { result ≡ length (filter (Σ (ranking self) (own_word self) 1) letters) }
    {
        let shift = 2 * (self.m - 1);
        3 - ((self.word ^ self.key) >> shift)
    }

    // Whether some R(i,j) with 2 ≤ j ≤ i is below.
    fn below_at(self, i: u64) -> bool
        requires { (0 < i) × (i ≤ self.m) }
        ensures { result ≡ is_below_at (ranking self) (own_word self) (i - 1) }
    {
        (2..i + 1).any(|j| self.compared(i, j).is_lt())
    }

    // Whether i shared letters ban an antemer: some R(i',j) with 2 ≤ j ≤ i' ≤ i is below.
    fn banned(self, i: u64) -> bool
        requires { i ≤ self.m }
        ensures { result ≡ bannedBy (ranking self) (own_word self) (λ j. true) i }
    {
        (1..i + 1).any(|shared| self.below_at(shared))
    }

    // Whether a letter may not follow i shared ones, by j: R(i,j) is equal, and the letter neither lies in Σ(i-j+2) nor is a(i-j+2).
    // By hand: `hinders` and `ties` are two, as document 01 has two tests of which one restrains a letter and the other gives T.
    fn hinders(self, i: u64, j: u64, letter: u64) -> bool
        requires { (2 ≤ j) × (j ≤ i + 1) × (i < self.m) × (letter < 4) }
        ensures { result ≡ is_hindered (ranking self) (own_word self) i j letter }
    {
        self.compared(i, j).is_eq() && self.letter_sign(i + 2 - j, letter).is_lt()
    }

    // Whether a letter may follow i shared ones: it lies in Σ(i+1), and for every j from 2 to i + 1 with R(i,j) equal it lies in Σ(i-j+2) or is
    // a(i-j+2). With j = i + 1 that is Σ1 and a1.
    fn may_follow(self, i: u64, letter: u64) -> bool
        requires { (i < self.m) × (letter < 4) }
        ensures { result ≡ mayFollow (ranking self) (own_word self) (λ j. true) i letter }
    {
        self.letter_sign(i + 1, letter).is_gt() && !(2..i + 2).any(|j| self.hinders(i, j, letter))
    }

    // Whether the longest prefix is shared again from j on: R(i,j) is equal, and a(i-j+2) is the letter.
    fn ties(self, i: u64, j: u64, letter: u64) -> bool
        requires { (2 ≤ j) × (j ≤ i + 1) × (i < self.m) × (letter < 4) }
        ensures { result ≡ is_tied (ranking self) (own_word self) i j letter }
    {
        self.compared(i, j).is_eq() && self.letter_sign(i + 2 - j, letter).is_eq()
    }

    // T: the least j from 2 to i + 1 that ties the letter; i + 2 where there is none.
    // By hand: where no j ties, T is i + 2, so that i + 2 - T, the letters shared again, is 0 without a case of its own.
    fn least_tied(self, i: u64, letter: u64) -> u64
        requires { (i < self.m) × (letter < 4) }
        ensures { result ≡ T (ranking self) (own_word self) (λ j. true) i letter }
    {
        (2..i + 2)
            .find(|&j| self.ties(i, j, letter))
            .unwrap_or(i + 2)
    }

    // Whether the first i letters of the word are an antemer, tested directly.
    fn whole(self, i: u64) -> bool
        requires served { Served self.m i }
        requires in_range { i ≤ self.m }
        ensures { result ≡ is_antemer self (take i (own_word self)) }
    {
        let side = powers::power(self.m);
        let followed = (self.word >> (2 * (self.m - i))) * side + self.word;
        let value = self.word ^ self.key;
        (0..i).all(|p| value < (followed >> (2 * (i - p))) % side ^ self.key)
    }

    // The antemers of length n that share at least i letters with the word: those that share i, one more, and so on.
    // By hand: `Served`, that n is at most 10 and m + n at most 31, is asked by each function: n falls from call to call, and is a field of nothing.
    #[cycle(all_prefixes_one_prefix)]
    fn all_prefixes(self, i: u64, n: u64) -> u64
        requires { Served self.m n }
        ensures { result ≡ sharing_from (own_word self) (is_antemer self) i n }
    {
        let mut sum = 0;
        for shared in i..powers::lesser(self.m, n) + 1 {
            sum += self.one_prefix(shared, n);
        }
        sum
    }

    // The antemers of length n that share exactly i letters with the word.
    #[cycle(all_prefixes_one_prefix)]
    fn one_prefix(self, i: u64, n: u64) -> u64
        requires served { Served self.m n }
        requires in_range { (i ≤ self.m) × (i ≤ n) }
        ensures { result ≡ sharing (own_word self) (is_antemer self) i n }
    {
        if i == self.m || self.banned(i) {
            return 0;
        }
        if i == n {
            return u64::from(self.whole(i));
        }
        if i == 0 {
            return self.first_alphabet() * self.all_prefixes(0, n - 1);
        }
        let mut sum = 0;
        for letter in 0..4 {
            if self.may_follow(i, letter) {
                let t = self.least_tied(i, letter);
                sum += self.all_prefixes(i + 2 - t, n + 1 - t);
            }
        }
        sum
    }
}

// The number of antemers of length k - m. Refusals 1 to 4, then 9.
pub fn antemers(k: u64, m: u64, key: u64, word: u64) -> Result<u64, Refusal>
    ensures { counted result ≡ counter_outcome k m key word }
{
    powers::word_refusal(k, m, key, m, word)?;
    if 10 < k - m {
        return Err(Refusal::Counter);
    }
    Ok(Setting { m, key, word }.all_prefixes(0, k - m))
}
