// The size of a shelf: the sum over a of antemers in row k - m - a of its worksheet times postmers in row a. Assumes nothing.
#![tactic(auto)]

ghost use Rattle.std.specs.Prelude.{◌≡◌, suc, ◌^◌, ◌≤◌};
ghost use Rattle.definitions.specs.Outcomes.{size_outcome};
ghost use Rattle.laws.specs.Split.{product_sum};
ghost use Rattle.sizes.specs.Answers.{counted};

use refusals::Refusal;
use worksheets::Sheet;

// The sum over a of the antemers in row n - a times the postmers in row a.
fn products(n: u64, sheet: &Sheet) -> u64
    requires { (n ≤ 30) × (product_sum n sheet.now.antemers sheet.now.postmers (suc n) ≤ 4 ^ 31) }
    ensures { result ≡ product_sum n sheet.now.antemers sheet.now.postmers (suc n) }
{
    let mut sum = 0;
    for a in 0..n + 1 {
        let before = n - a;
        sum += sheet.antemers[before as usize] * sheet.postmers[a as usize];
    }
    sum
}

// The size of a shelf. Refusals 1 to 4.
pub fn size(k: u64, m: u64, key: u64, word: u64) -> Result<u64, Refusal>
    ensures { counted result ≡ size_outcome k m key word }
{
    let sheet = worksheets::worksheet(k, m, key, word)?;
    let count = products(k - m, &sheet);
    Ok(count)
}
