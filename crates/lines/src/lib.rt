// The line that the shelf printer reads: k, a key and a word. Assumes nothing.
#![tactic(auto)]

ghost use Rattle.std.specs.Prelude.{◌≡◌, eqb, position, MatchOption};
ghost use Rattle.definitions.specs.Cards.{read_outcome};
ghost use Rattle.lines.specs.Answers.{lined, IsUncut, IsCut, digit_of, spelled_in, parts_of, asked_in, asked_by, asked_for};

use refusals::Refusal;

// The place of the first such byte.
fn find(byte: u8, text: &[u8]) -> Option<usize>
    ensures { result ≡ position (eqb byte) text.now }
{
    text.iter().position(|other| byte == *other)
}

// The parts of a text before and behind the first such byte.
// By hand: a slice has no `split_once`, and `splitn` gives two parts or one: whoever takes both would ask again whether there are two.
fn cut(byte: u8, text: &[u8]) -> Option<(&[u8], &[u8])>
    ensures { MatchOption result (IsUncut byte text.now) (λ parts. IsCut byte text.now parts.0.now parts.1.now) }
{
    let at = find(byte, text)?;
    Some((&text[..at], &text[at + 1..]))
}

// The digit that a byte spells.
fn digit(byte: u8) -> Option<u64>
    ensures { result ≡ digit_of byte }
{
    match byte {
        b'0'..=b'9' => Some((byte - b'0') as u64),
        _ => None,
    }
}

// The number that one or two digits with no leading zero spell.
fn number(text: &[u8]) -> Option<u64>
    ensures { result ≡ spelled_in text.now }
{
    match text {
        [only] => digit(*only),
        [b'0', _] => None,
        [tens, ones] => Some(digit(*tens)? * 10 + digit(*ones)?),
        _ => None,
    }
}

// What a line asks for: k, m, and the numbers of the key and the word.
#[derive(Clone, Copy, Debug, PartialEq, Eq)]
pub struct Line {
    pub k: u64,
    pub m: u64,
    pub key: u64,
    pub word: u64,
}

// The line of three texts, if they are k, and a key and a word equally long.
fn read_parts(k: &[u8], key: &[u8], word: &[u8]) -> Option<Line>
    ensures { asked_in result ≡ asked_by (parts_of k.now key.now word.now) }
{
    let line = Line {
        k: number(k)?,
        m: key.len() as u64,
        key: words::pack(key).ok()?,
        word: words::pack(word).ok()?,
    };
    (key.len() == word.len()).then_some(line)
}

// The line of an input, if that is three parts with one space after k, one after the key, and a line feed at the end.
fn read_all(input: &[u8]) -> Option<Line>
    ensures { asked_in result ≡ asked_for input.now }
{
    let (k, rest) = cut(b' ', input)?;
    let (key, last) = cut(b' ', rest)?;
    let (word, end) = cut(b'\n', last)?;
    if end.is_empty() {
        read_parts(k, key, word)
    } else {
        None
    }
}

// What the line of an input asks for. Refusal 10.
pub fn read(input: &[u8]) -> Result<Line, Refusal>
    ensures { lined result ≡ read_outcome input.now }
{
    read_all(input).ok_or(Refusal::Line)
}
