// A whole shelf, listed by pages. Assumes nothing.
#![tactic(auto)]

ghost use Rattle.std.specs.Prelude.{◌≡◌, Ok, map};
ghost use Rattle.definitions.specs.Lists.{over};
ghost use Rattle.definitions.specs.Words.{val, word as word_of};
ghost use Rattle.definitions.specs.Vigemins.{keyed};
ghost use Rattle.definitions.specs.Shelves.{shelf};
ghost use Rattle.listers.specs.Answers.{ListReady, list_outcome, listed};

use refusals::Refusal;

// Takes page after page, each from where the last one stopped and with room for at most `each` k-mers, until the size is reached.
fn list_pages(
    k: u64,
    m: u64,
    key: u64,
    word: u64,
    each: u64,
    size: u64,
    room: &mut [u64],
) -> Result<u64, Refusal>
    requires { ListReady k m key word each size room.old }
    ensures answered { result ≡ Ok size }
    ensures filled { room.new ≡ over (map val (shelf (keyed (word_of m key)) k (word_of m word))) room.old }
{
    let mut at: u64 = 0;
    // By hand: a page starts where the last one stopped, which its answer tells; parts cut beforehand by `chunks_mut` ask that `each` is not 0, and that a page fills its part.
    while at < size {
        let end = at + powers::lesser(each, room.len() as u64 - at);
        at += shelves::page(k, m, key, word, at, &mut room[at as usize..end as usize])?;
    }
    Ok(at)
}

// Writes all k-mers of a shelf, by pages of at most `each` k-mers, and tells how many. Refusals 1 to 4, then 7: the room must take the whole shelf, and a page at
// least one k-mer of a shelf that has any.
pub fn list(
    k: u64,
    m: u64,
    key: u64,
    word: u64,
    each: u64,
    room: &mut [u64],
) -> Result<u64, Refusal>
    ensures { listed result room.new ≡ list_outcome k m key word each room.old }
{
    let size = sizes::size(k, m, key, word)?;
    if ((room.len() as u64) < size) | (each < powers::lesser(1, size)) {
        return Err(Refusal::Room);
    }
    list_pages(k, m, key, word, each, size, room)
}
