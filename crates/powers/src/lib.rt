// Powers: the powers of four, the range test, the refusals of k, m, key and word, the lesser of two numbers and the sign of
// one against another. Assumes nothing.
#![tactic(auto)]

ghost use Rattle.std.specs.Prelude.{◌≡◌, [], ◌∷◌, ◌++◌, ◌^◌, min, leb};
ghost use Rattle.definitions.specs.Lists.{tabulate};
ghost use Rattle.definitions.specs.Refusals.{refusal, bad_key, bad_word};
ghost use Rattle.definitions.specs.Outcomes.{order_grounds};
ghost use Rattle.laws.specs.Rules.{sign as sign_of};
ghost use Rattle.refusals.specs.Numbers.{refusal_in};
ghost use Rattle.powers.specs.Powers.{power_outcome};
ghost use Rattle.powers.specs.Signs.{signed};

use refusals::Refusal;
use std::cmp::Ordering;

// The powers of four from 0 to 31.
const POWERS: [u64; 32] = [
    1,
    4,
    16,
    64,
    256,
    1024,
    4096,
    16384,
    65536,
    262144,
    1048576,
    4194304,
    16777216,
    67108864,
    268435456,
    1073741824,
    4294967296,
    17179869184,
    68719476736,
    274877906944,
    1099511627776,
    4398046511104,
    17592186044416,
    70368744177664,
    281474976710656,
    1125899906842624,
    4503599627370496,
    18014398509481984,
    72057594037927936,
    288230376151711744,
    1152921504606846976,
    4611686018427387904,
];

// The table: 4^n at place n.
pub fn powers() -> [u64; 32]
    ensures { result ≡ tabulate (λ n. 4 ^ n) 32 }
{
    POWERS
}

// 4^n in 64 bits. What passes them is dropped, and where n is above 31 that is all of it.
// By hand: 0 is no sign for "none", but what 64 bits leave of the power, as the contract says.
pub fn power(n: u64) -> u64
    ensures { result ≡ power_outcome n }
{
    if 31 < n {
        return 0;
    }
    let table = powers();
    table[n as usize]
}

// The lesser of two numbers.
// By hand: a public function, whose name and contract may not change; it is `min`, and the libraries take their minima by it, so that its contract holds what they run.
pub fn lesser(a: u64, b: u64) -> u64
    ensures { result ≡ min a b }
{
    a.min(b)
}

// How one number stands against another.
// By hand: a public function, whose name and contract may not change; it is `cmp`, and the states and the plain counter compare by it, so that its contract holds what they run.
pub fn sign(x: u64, y: u64) -> Ordering
    ensures { result ≡ signed (sign_of x y) }
{
    x.cmp(&y)
}

// Whether a word is too large for n letters.
pub fn too_large(n: u64, word: u64) -> bool
    ensures { result ≡ leb (4 ^ n) word }
{
    if 31 < n {
        return false;
    }
    power(n) <= word
}

// Refuses what every keyed operation refuses: 1, 2 or 3.
// By hand: k, m, the key and a word come to every operation as plain numbers, as document 01 has them, and are handed on as they came.
pub fn order_refusal(k: u64, m: u64, key: u64) -> Result<(), Refusal>
    ensures { refusal_in result ≡ refusal (order_grounds k m (bad_key m key)) }
{
    if (k == 0) | (31 < k) {
        return Err(Refusal::K);
    }
    if (m == 0) | (k < m) {
        return Err(Refusal::M);
    }
    if too_large(m, key) {
        return Err(Refusal::Key);
    }
    Ok(())
}

// Refuses the same, or else a word that is too large for n letters: 4.
pub fn word_refusal(k: u64, m: u64, key: u64, n: u64, word: u64) -> Result<(), Refusal>
    ensures { refusal_in result ≡ refusal (order_grounds k m (bad_key m key) ++ (bad_word n word ∷ [])) }
{
    order_refusal(k, m, key)?;
    if too_large(n, word) {
        return Err(Refusal::Word);
    }
    Ok(())
}
