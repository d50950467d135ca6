// A state that is lent as a row of words: its pieces in a fixed order, read from the row and written over it.
#![tactic(auto)]

ghost use Rattle.std.specs.Prelude.{◌≡◌, get_or, drop};
ghost use Rattle.rows.specs.Written.{over};
ghost use Rattle.state_rows.specs.Pieces.{placed};

// The word at a place, 0 past the row's end.
pub fn word(row: &[u32], at: usize) -> u32
    ensures { result ≡ get_or row.now at 0 }
{
    row.get(at).copied().unwrap_or(0)
}

// The row's words from a place on over the words, as many as there are.
pub fn read(row: &[u32], at: usize, words: &mut [u32])
    ensures { words.new ≡ over (drop at row.now) words.old }
{
    let from = at.min(row.len());
    rows::copy(words, &row[from..]);
}

// The words over the row from a place on, as many as it has room for.
pub fn place(row: &mut [u32], at: usize, words: &[u32])
    ensures { row.new ≡ placed at words.now row.old }
{
    let from = at.min(row.len());
    rows::copy(&mut row[from..], words);
}
