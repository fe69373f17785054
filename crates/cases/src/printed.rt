// A case of the shelf printer: a file with the bytes that are read, and one with what must be printed.
use std::fs;
use std::rt::Files;

// Whether the card of an input has this text.
fn prints(input: &[u8], expected: &[u8]) -> bool {
    let card = cards::card(input);
    &card.text[..card.length] == expected
}

// Whether both files can be read, and the second has the card of the first. They are named by bytes, which must be text.
pub fn printer(rt: &(impl Files + Alloc), input: &[u8], expected: &[u8]) -> bool {
    let (Ok(input), Ok(expected)) = (str::from_utf8(input), str::from_utf8(expected)) else {
        return false;
    };
    match (fs::read(rt, input), fs::read(rt, expected)) {
        (Ok(input), Ok(expected)) => prints(&input, &expected),
        _ => false,
    }
}
