// The shelf printer: reads standard input to its end, and writes the card of the shelf that its line names.
#![tactic(auto)]

ghost use Rattle.std.specs.Prelude.{◌≤◌, length, IfOk};

use std::io;
use std::io::{Print, Read, Stdin};

// Reads on to the end of the input and keeps nothing. The bound only makes the loop end for the prover.
// By hand: `io::copy` to `io::sink()` tries an interrupted read again, and what this program writes where a read fails may not change.
fn skip_rest(input: &mut Stdin) -> io::Result<()> {
    let mut rest = [0u8; 4096];
    for _ in 0..u64::MAX {
        if input.read(&mut rest)? == 0 {
            break;
        }
    }
    Ok(())
}

// Reads to the end of the input, and answers what of it stands in the room. A well-formed line has at most 67 bytes, so what fills the room is refused
// however it goes on.
// By hand: a `Vec` that `read_to_end` fills takes a heap, which adds to what README says this program assumes; and `io::copy` tries an interrupted read again, as above.
fn read_all<'a>(input: &mut Stdin, room: &'a mut [u8; 128]) -> io::Result<&'a [u8]>
    ensures { IfOk result (λ read. length read.now ≤ 128) }
{
    let mut n = 0;
    while n < room.len() {
        match input.read(&mut room[n..])? {
            0 => return Ok(&room[..n]),
            more => n += more,
        }
    }
    skip_rest(input)?;
    Ok(room)
}

// An input that cannot be read to its end counts as empty, and its error is returned once the card is written.
fn main(rt: HostRuntime) -> io::Result<()> {
    let mut room = [0u8; 128];
    let (input, end) = match read_all(&mut rt.stdin(), &mut room) {
        Ok(input) => (input, Ok(())),
        Err(e) => (b"".as_slice(), Err(e)),
    };
    let card = cards::card(input);
    rt.stdout().write_all(&card.text[..card.length])?;
    end
}
