// Words: packing and unpacking. Assumes nothing.
#![tactic(auto)]

ghost use Rattle.std.specs.Prelude.{◌≡◌, ◌<◌, ◌≤◌, not, length, get_or};
ghost use Rattle.definitions.specs.Words.{val, spelled, capitals, word as word_of, text as written};
ghost use Rattle.definitions.specs.Refusals.{bad_length};
ghost use Rattle.definitions.specs.Outcomes.{pack_outcome, unpack_outcome};
ghost use Rattle.laws.specs.Accepted.{PackAccepted};
ghost use Rattle.words.specs.Answers.{packed, unpacked};

use refusals::Refusal;

// Whether a text or a word can have so many letters.
fn is_length(n: u64) -> bool
    ensures { result ≡ not (bad_length n).met }
{
    (1..=31).contains(&n)
}

// The number of the word that a text of at most 31 letters spells.
fn read(text: &[u8]) -> u64
    requires { PackAccepted text.now }
    ensures { result ≡ val (spelled text.now) }
{
    let mut word = 0;
    for i in 0..text.len() {
        word = word * 4 + letters::letter(text[i]).unwrap();
    }
    word
}

// The word that a text spells. Refusals 1, 6.
pub fn pack(text: &[u8]) -> Result<u64, Refusal>
    ensures { packed result ≡ pack_outcome text.now }
{
    if !is_length(text.len() as u64) {
        return Err(Refusal::K);
    }
    if let Some(bad) = letters::first_bad(text) {
        return Err(Refusal::Letter { place: bad as u64 });
    }
    Ok(read(text))
}

// The byte that a letter is written as.
fn capital(letter: u64) -> u8
    requires { letter < 4 }
    ensures { result ≡ get_or capitals letter 0 }
{
    b"ACGT"[letter as usize]
}

// Writes the letters of a word of as many letters as there is room for.
fn write(word: u64, room: &mut [u8])
    requires { length room.old ≤ 31 }
    ensures { room.new ≡ written (word_of (length room.old) word) }
{
    let n = room.len();
    for (i, byte) in room.iter_mut().enumerate() {
        *byte = capital((word >> (2 * (n - 1 - i))) % 4);
    }
}

// Writes the letters of a word of so many letters at the front of the room, and tells how many. Refusals 1, 4, 7.
pub fn unpack(word: u64, length: u64, room: &mut [u8]) -> Result<u64, Refusal>
    ensures { unpacked result room.new ≡ unpack_outcome word length room.old }
{
    if !is_length(length) {
        return Err(Refusal::K);
    }
    if powers::too_large(length, word) {
        return Err(Refusal::Word);
    }
    if (room.len() as u64) < length {
        return Err(Refusal::Room);
    }
    write(word, &mut room[..length as usize]);
    Ok(length)
}
