// Vigemins: the value by which m-mers are compared, and the vigemin of a k-mer. Assumes nothing.
#![tactic(auto)]

ghost use Rattle.std.specs.Prelude.{◌≡◌, Ok};
ghost use Rattle.std.specs.Int.Bits.{bit_xor};
ghost use Rattle.definitions.specs.Words.{word as word_of};
ghost use Rattle.definitions.specs.Vigemins.{keyed};
ghost use Rattle.definitions.specs.Outcomes.{vigemin_answer, vigemin_outcome};
ghost use Rattle.laws.specs.Accepted.{VigeminAccepted};
ghost use Rattle.vigemins.specs.Answers.{found};

use refusals::Refusal;

// The value by which an m-mer is compared: its sum with the key.
pub fn value(mer: u64, key: u64) -> u64
    ensures { result ≡ bit_xor mer key }
{
    mer ^ key
}

// What is found as the vigemin of a k-mer: its word and its position.
#[derive(Clone, Copy, Debug, PartialEq, Eq)]
pub struct Found {
    pub word: u64,
    pub position: u64,
}

// The vigemin of a k-mer: the least m-mer so far is replaced only by a strictly lesser one.
fn least_mer(k: u64, m: u64, key: u64, kmer: u64) -> Found
    requires { VigeminAccepted k m key kmer }
    ensures { found (Ok result) ≡ vigemin_answer 0 (keyed (word_of m key)) m (word_of k kmer) }
{
    let mask = powers::power(m) - 1;
    let last = k - m;
    let mut word = (kmer >> (2 * last)) & mask;
    let mut least = value(word, key);
    let mut position: u64 = 0;
    for p in 1..last + 1 {
        let mer = (kmer >> (2 * (last - p))) & mask;
        let other = value(mer, key);
        if other < least {
            word = mer;
            least = other;
            position = p;
        }
    }
    Found { word, position }
}

// The vigemin of a k-mer and its position. Refusals 1 to 4.
pub fn vigemin(k: u64, m: u64, key: u64, kmer: u64) -> Result<Found, Refusal>
    ensures { found result ≡ vigemin_outcome k m key kmer }
{
    powers::word_refusal(k, m, key, k, kmer)?;
    Ok(least_mer(k, m, key, kmer))
}
