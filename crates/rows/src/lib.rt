// Rows of words: words copied into a row's first places.
#![tactic(auto)]

ghost use Rattle.std.specs.Prelude.{◌≡◌};
ghost use Rattle.rows.specs.Written.{over};

// The words into the row's first places, as many as it has.
pub fn copy(row: &mut [u32], words: &[u32])
    ensures { row.new ≡ over words.now row.old }
{
    let end = words.len().min(row.len());
    row[..end].copy_from_slice(&words[..end]);
}
