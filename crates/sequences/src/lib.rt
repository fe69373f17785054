// Sequences: what reading a sequence refuses, and how many windows it has. Assumes nothing.
#![tactic(auto)]

ghost use Rattle.std.specs.Prelude.{◌≡◌, suc, ◌-◌, ◌≤◌};
ghost use Rattle.sequences.specs.Answers.{examined, examine_outcome};

use refusals::Refusal;

// How many windows of k letters n letters have.
fn window_count(n: u64, k: u64) -> u64
    requires { n ≤ 65536 }
    ensures { result ≡ suc n - k }
{
    (n + 1).saturating_sub(k)
}

// Examines k, m, the key and a sequence, for room that takes what is written for so many windows, and answers how many windows there are. Refusals 1, 2,
// 3, 5, 6, 7.
pub fn examine(k: u64, m: u64, key: u64, seq: &[u8], takes: u64) -> Result<u64, Refusal>
    ensures { examined result ≡ examine_outcome k m key seq.now takes }
{
    powers::order_refusal(k, m, key)?;
    let n = seq.len() as u64;
    if 65536 < n {
        return Err(Refusal::Sequence);
    }
    if let Some(bad) = letters::first_bad(seq) {
        return Err(Refusal::Letter { place: bad as u64 });
    }
    let windows = window_count(n, k);
    if takes < windows {
        return Err(Refusal::Room);
    }
    Ok(windows)
}
