// The foreign forms, on plain numbers and slices of bytes: what the crate `tukinraso_c` exports. Assumes nothing.
#![tactic(auto)]

ghost use Rattle.std.specs.Prelude.{◌≡◌, ◌<◌};
ghost use Rattle.definitions.specs.Outcomes as outcomes;
ghost use Rattle.refusals.specs.Numbers.{place_in};
ghost use Rattle.tukinraso.specs.Answers.{code, foreign_scanned};

use refusals::Refusal;

// The one number that a foreign form answers: the answer or, refused, 2^63 plus 65,536 times the refusal plus the place of a bad letter.
// By hand: the foreign forms answer one number, as document 01 has it for C.
fn coded(answer: Result<u64, Refusal>) -> u64
    requires { place_in answer < 65536 }
    ensures { result ≡ code answer }
{
    match answer {
        Ok(n) => n,
        Err(refusal) => 9223372036854775808 + 65536 * refusal.number() + refusal.place(),
    }
}

// The scan of a sequence into bytes: each position as four bytes, high first, at the front of the room.
pub fn tukinraso_scan(k: u64, m: u64, key: u64, seq: &[u8], room: &mut [u8]) -> u64
    ensures { foreign_scanned result room.new ≡ outcomes.foreign_scan_outcome k m key seq.now room.old }
{
    coded(scans::scan_bytes(k, m, key, seq, room))
}

// The size of a shelf.
pub fn tukinraso_size(k: u64, m: u64, key: u64, word: u64) -> u64
    ensures { result ≡ outcomes.foreign_size_outcome k m key word }
{
    coded(sizes::size(k, m, key, word))
}
