// The states of a word w under a key, prepared once for a call. State i is document 01's shared prefix of i letters: the latest i letters read
// are the first i of w, and no more are. Nothing that counts or lists a shelf reads the key: it reads these tables. Assumes nothing.
//
//   document 01         here
//   a(i+1), Σ(i+1)      own[i] is w's letter at place i, from 0; marks, at row i and letter b, says whether b ranks below it, is it, or ranks
//                       above it, that is lies in Σ(i+1). Σ(m+1) has all four letters, and so has every row from m on
//   R(i,j) equal        a state tied with state i: the latest i−j+1 of the first i letters of w are its first ones. `fall` is the longest of
//                       these below i, and the others are tied with `fall` too
//   T, and i−T+2        next, at row i and letter b: the state after b, the longest one that is still tied. Where b is w's own letter that is
//                       i+1; else it is what follows from `fall`
//   a letter is banned  where some tied m-mer exists and b ranks below w's letter in it. ban, at row i and letter b, has the fewest letters left,
//                       b among them, at which that is so; NEVER where it never is. Of the tied m-mers the one that began first needs the
//                       fewest letters more, so the longest tied state at which b ranks below decides
#![tactic(auto)]

ghost use Rattle.std.specs.Prelude.{◌≡◌, ◌*◌, ◌≤◌, ◌<◌};
ghost use Rattle.std.proofs.lemmas.List.Edits.{sets};
ghost use Rattle.definitions.specs.Words.{word as word_of};
ghost use Rattle.laws.specs.Orders.{key_ranking};
ghost use Rattle.states.specs.Tables.{row_of, entry_by, linked_row, Linking, Known, All, AlphabetsOf, Unlinked, LinksOf};
ghost use Rattle.states.specs.Answers.{four_of, prepare_outcome, prepared};

use refusals::Refusal;
use std::cmp::Ordering;

// More letters than are ever left.
// By hand: a number and no Option: what is left is always below it, so that `left < ban` alone tells whether a letter is allowed.
pub const NEVER: u8 = 64;

// A row of a table: one entry for each letter.
// By hand: a field for each letter. With an array and a closure the goal `loop-p-preserved` of `special_alphabets` stays open.
#[derive(Clone, Copy)]
struct Four<E> {
    a: E,
    c: E,
    g: E,
    t: E,
}

impl<E: Copy> Four<E> {
    // The row of a state.
    fn at(state: u64, table: &[E; 128]) -> Self
        requires { state < 32 }
        ensures { four_of result ≡ row_of state table.now }
    {
        let place = (4 * state) as usize;
        Four {
            a: table[place],
            c: table[place + 1],
            g: table[place + 2],
            t: table[place + 3],
        }
    }

    // Writes the row of a state.
    fn put(self, state: u64, table: &mut [E; 128])
        requires { state < 32 }
        ensures { table.new ≡ sets table.old (4 * state) (four_of self) }
    {
        let place = (4 * state) as usize;
        table[place] = self.a;
        table[place + 1] = self.c;
        table[place + 2] = self.g;
        table[place + 3] = self.t;
    }
}

// The states of a word: the special alphabets, the next states and the bans.
// By hand: four flat arrays and no array of rows, since each is lent and gone through alone, and a part of it is a row.
#[derive(Clone, Copy)]
pub struct States {
    pub own: [u8; 32],
    pub marks: [Ordering; 128],
    pub next: [u8; 128],
    pub ban: [u8; 128],
}

// The special alphabets under a key, where the rank of a letter is its sum with the key's letter. What comes after reads no key. The states are
// not linked yet: every letter leads to state 0, and none is banned.
fn special_alphabets(m: u64, key: u64, word: u64) -> States
    requires { (0 < m) × (m ≤ 31) }
    ensures { AlphabetsOf (key_ranking (word_of m key)) (word_of m word) m result.own result.marks × Unlinked result.next result.ban }
{
    let mut s = States {
        own: [0; 32],
        marks: [Ordering::Greater; 128],
        next: [0; 128],
        ban: [NEVER; 128],
    };
    for p in 0..m {
        let shift = 2 * (m - 1 - p);
        let letter = (word >> shift) % 4;
        let key_letter = (key >> shift) % 4;
        let rank = letter ^ key_letter;
        s.own[p as usize] = letter as u8;
        let marked = Four {
            a: powers::sign(0 ^ key_letter, rank),
            c: powers::sign(1 ^ key_letter, rank),
            g: powers::sign(2 ^ key_letter, rank),
            t: powers::sign(3 ^ key_letter, rank),
        };
        marked.put(p, &mut s.marks);
    }
    s
}

// What a table holds at a letter: `held` where the letter has the mark that is asked for, else what it holds at the state that this one falls to.
fn entry(asked: Ordering, held: u64, mark: Ordering, fallen: u8) -> u8
    requires { held ≤ 32 }
    ensures { result ≡ entry_by asked held mark fallen }
{
    if mark == asked { held as u8 } else { fallen }
}

// Writes the row of state i, by the marks of its letters and by the row of the state that it falls to.
fn link(asked: Ordering, held: u64, marks: Four<Ordering>, fall: u64, i: u64, table: &mut [u8; 128])
    requires { Linking held fall i }
    ensures { table.new ≡ sets table.old (4 * i) (linked_row asked held (four_of marks) (row_of fall table.old)) }
{
    let fallen = Four::at(fall, table);
    let here = Four {
        a: entry(asked, held, marks.a, fallen.a),
        c: entry(asked, held, marks.c, fallen.c),
        g: entry(asked, held, marks.g, fallen.g),
        t: entry(asked, held, marks.t, fallen.t),
    };
    here.put(i, table);
}

// Goes through the states from 0 to m. A state's rows follow from its marks and from the rows of the state that it falls to; state 0 falls
// to none, and finds in its own rows what they are set to at first: every letter leads to state 0, and none is banned.
fn link_states(m: u64, mut s: States) -> States
    requires known { Known (λ ρ w. AlphabetsOf ρ w m s.own s.marks) }
    requires unlinked { Unlinked s.next s.ban }
    ensures { (result.own ≡ s.own) × (result.marks ≡ s.marks) × All (λ ρ w. AlphabetsOf ρ w m s.own s.marks) (λ ρ w. LinksOf ρ w result.next result.ban) }
{
    let mut fall: u64 = 0;
    for i in 0..m + 1 {
        let here = Four::at(i, &s.marks);
        let letter = s.own[i as usize] as u64;
        let after = s.next[(4 * fall + letter) as usize] as u64;
        link(Ordering::Equal, i + 1, here, fall, i, &mut s.next);
        link(Ordering::Less, m - i, here, fall, i, &mut s.ban);
        fall = after;
    }
    s
}

// The states of a word under a key. Refusals 1 to 4.
pub fn prepare(k: u64, m: u64, key: u64, word: u64) -> Result<States, Refusal>
    ensures { prepared result ≡ prepare_outcome k m key word }
{
    powers::word_refusal(k, m, key, m, word)?;
    let unlinked = special_alphabets(m, key, word);
    Ok(link_states(m, unlinked))
}
