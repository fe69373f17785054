// A case of each operation: whether what is asked comes out as it must. Room is lent full of nines, so that what is written is seen, and what must
// stay as it was.
use crate::columns::Case;
use refusals::Refusal;
use std::iter;
use worksheets::Sheet;

// Whether the case of an operation holds. No other operation does.
pub fn holds(operation: &[u8], case: &Case<'_>) -> bool {
    match operation {
        b"pack" => pack(case.text, case),
        // thirty letters and a line feed, which no line of a table has
        b"pack-line-feed" => pack(b"TTTTTTTTTTTTTTTTTTTTTTTTTTTTTT\n", case),
        b"unpack" => unpack(case),
        b"vigemin" => vigemin(case),
        b"scan" => scan(case),
        b"long-scan" => long_scan(case),
        b"size" => size(case),
        b"sum-of-sizes" => sum_of_sizes(case),
        b"page" => page(case),
        b"plain-counter" => antemers(case),
        b"worksheet" => worksheet(case),
        b"foreign-size" => foreign_size(case),
        b"foreign-scan" => foreign_scan(case),
        _ => false,
    }
}

// Whether a room has these numbers, from the first on.
fn room_has<T, I>(room: &[T], numbers: I) -> bool
where
    T: Copy + Into<u64>,
    I: Iterator<Item = u64> + Drop,
    requires { I.can_next numbers }
{
    room.iter()
        .zip(numbers)
        .all(|(entry, number)| (*entry).into() == number)
}

// What an operation answered, as the columns have it: the refusal and the number, zeros for what there is not.
// By hand: the columns of a case are numbers.
fn told(answered: Result<u64, Refusal>) -> (u64, u64) {
    match answered {
        Ok(number) => (0, number),
        Err(refusal) => (refusal.number(), 0),
    }
}

// The same, where the place of a bad letter comes before the number.
fn told_with_place(answered: Result<u64, Refusal>) -> (u64, u64, u64) {
    let place = answered.map_or_else(Refusal::place, |_| 0);
    let (refusal, number) = told(answered);
    (refusal, place, number)
}

// Packing a text: the refusal, the place of a bad letter, the word.
fn pack(text: &[u8], case: &Case<'_>) -> bool {
    told_with_place(words::pack(text)) == (case.refusal, case.first, case.second)
}

// Unpacking the word as one of k letters: the refusal, how many letters are written, and the room of eight after, which is the text.
fn unpack(case: &Case<'_>) -> bool {
    let mut lent = [b'9'; 8];
    let takes = case.room.min(8) as usize;
    let got = words::unpack(case.word, case.k, &mut lent[..takes]);
    (told(got) == (case.refusal, case.first)) & (&lent[..] == case.text)
}

// The vigemin of the k-mer: the refusal, the vigemin, its position.
fn vigemin(case: &Case<'_>) -> bool {
    let got = vigemins::vigemin(case.k, case.m, case.key, case.word);
    let position = got.map_or(0, |found| found.position);
    let (refusal, word) = told(got.map(|found| found.word));
    (refusal, word, position) == (case.refusal, case.first, case.second)
}

// The size: the refusal, the number of k-mers.
fn size(case: &Case<'_>) -> bool {
    let got = sizes::size(case.k, case.m, case.key, case.word);
    told(got) == (case.refusal, case.first)
}

// The sum of the sizes of the words below this one.
fn sum_of_sizes(case: &Case<'_>) -> bool {
    let sum = (0..case.word)
        .filter_map(|word| sizes::size(case.k, case.m, case.key, word).ok())
        .fold(0u64, |sum, size| sum.wrapping_add(size));
    sum == case.first
}

// The plain counter: the refusal, the number of antemers.
fn antemers(case: &Case<'_>) -> bool {
    let got = counters::antemers(case.k, case.m, case.key, case.word);
    told(got) == (case.refusal, case.first)
}

// The worksheet: the refusal, and rows 0 and 1 of the antemers and of the postmers; all other rows hold 0 twice.
fn worksheet(case: &Case<'_>) -> bool {
    let got = worksheets::worksheet(case.k, case.m, case.key, case.word);
    let (refusal, sheet) = match got {
        Ok(sheet) => (0, sheet),
        Err(refusal) => {
            let antemers = [0; 31];
            let postmers = [0; 31];
            (refusal.number(), Sheet { antemers, postmers })
        }
    };
    let ante = [case.first, case.second].into_iter().chain(iter::repeat(0));
    let post = case.after.into_iter().take(2).chain(iter::repeat(0));
    (refusal == case.refusal) & room_has(&sheet.antemers, ante) & room_has(&sheet.postmers, post)
}

// A page: the refusal, how many k-mers are written, and the room of five after.
fn page(case: &Case<'_>) -> bool {
    let mut lent = [9u64; 5];
    let takes = case.room.min(5) as usize;
    let room = &mut lent[..takes];
    let got = shelves::page(case.k, case.m, case.key, case.word, case.start, room);
    (told(got) == (case.refusal, case.first)) & room_has(&lent, case.after.into_iter())
}

// A scan: the refusal, the place of a bad letter, the number of windows.
fn scanned(seq: &[u8], room: &mut [u32], case: &Case<'_>) -> bool {
    let got = scans::scan(case.k, case.m, case.key, seq, room);
    told_with_place(got) == (case.refusal, case.first, case.second)
}

// A scan of the text: what it answers, and the room of six after.
fn scan(case: &Case<'_>) -> bool {
    let mut lent = [9; 6];
    let takes = case.room.min(6) as usize;
    scanned(case.text, &mut lent[..takes], case) & room_has(&lent, case.after.into_iter())
}

// A scan of one byte over and over, with room for 65,536 windows: the byte is the word, and the start is how often it stands there. Of equal m-mers the
// leftmost is the vigemin, so the positions rise from 0.
fn long_scan(case: &Case<'_>) -> bool {
    let letters = case.start.min(65537) as usize;
    let seq = &[(case.word % 256) as u8; 65537][..letters];
    let mut room = [9; 65536];
    scanned(seq, &mut room, case) & room_has(&room, (0..case.second).chain(iter::repeat(9)))
}

// The foreign size: the one number.
fn foreign_size(case: &Case<'_>) -> bool {
    tukinraso::tukinraso_size(case.k, case.m, case.key, case.word) == case.first
}

// The foreign scan of the text: the one number, and the room of eight bytes after.
fn foreign_scan(case: &Case<'_>) -> bool {
    let mut lent = [b'9'; 8];
    let takes = case.room.min(8) as usize;
    let room = &mut lent[..takes];
    let got = tukinraso::tukinraso_scan(case.k, case.m, case.key, case.text, room);
    (got == case.first) & room_has(&lent, case.after.into_iter())
}
