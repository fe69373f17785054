// The foreign forms as Rust and C link them: each calls the one of its name in the crate `tukinraso`, and keeps its contract. A slice passes as a pointer
// and a length. Assumes that both are valid, a null pointer only with length 0, and that `seq` and `room` do not overlap (docs/OUTCOMES.md).
#![tactic(auto)]

ghost use Rattle.std.specs.Prelude.{◌≡◌};
ghost use Rattle.definitions.specs.Outcomes as outcomes;
ghost use Rattle.tukinraso.specs.Answers.{foreign_scanned};

// The scan of a sequence into bytes: each position as four bytes, high first, at the front of the room.
#[unsafe(no_mangle)]
pub extern "C" fn tukinraso_scan(k: u64, m: u64, key: u64, seq: &[u8], room: &mut [u8]) -> u64
    ensures { foreign_scanned result room.new ≡ outcomes.foreign_scan_outcome k m key seq.now room.old }
{
    tukinraso::tukinraso_scan(k, m, key, seq, room)
}

// The size of a shelf.
#[unsafe(no_mangle)]
pub extern "C" fn tukinraso_size(k: u64, m: u64, key: u64, word: u64) -> u64
    ensures { result ≡ outcomes.foreign_size_outcome k m key word }
{
    tukinraso::tukinraso_size(k, m, key, word)
}
