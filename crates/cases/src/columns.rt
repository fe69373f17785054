// The columns of a case: what is asked, and what must come of it. A column is what stands between two spaces, and its number is that of its digits,
// or 0 where it has none; so `k=3` is 3, and `-` is 0.
use std::array;

// What is asked: a text; k, m, the key, and a word or a k-mer; the start of a page; and how many entries of room are lent. Then what must come of it:
// the refusal, two numbers beside it, and what the room must have after.
// By hand: a column has the number of the refusal, and 0 where nothing is refused.
#[derive(Clone, Copy)]
pub struct Case<'a> {
    pub text: &'a [u8],
    pub k: u64,
    pub m: u64,
    pub key: u64,
    pub word: u64,
    pub start: u64,
    pub room: u64,
    pub refusal: u64,
    pub first: u64,
    pub second: u64,
    pub after: [u64; 8],
}

impl<'a> Case<'a> {
    // The case with a text and the columns behind it. What stands behind the last column is of its number.
    pub fn new(text: &'a [u8], columns: &[u8]) -> Self {
        let mut columns = columns.splitn(17, |byte| *byte == b' ');
        let numbers: [u64; 17] = array::from_fn(|_| columns.next().map_or(0, number_of));
        let [k, m, key, word, start, room, refusal, first, second, ..] = numbers;
        let mut after = [0; 8];
        after.copy_from_slice(&numbers[9..]);
        Case {
            text,
            k,
            m,
            key,
            word,
            start,
            room,
            refusal,
            first,
            second,
            after,
        }
    }
}

// The number of the digits of a column, which wraps.
fn number_of(column: &[u8]) -> u64 {
    column
        .iter()
        .filter_map(|byte| char::from(*byte).to_digit(10))
        .fold(0u64, |number, digit| {
            number.wrapping_mul(10).wrapping_add(u64::from(digit))
        })
}
