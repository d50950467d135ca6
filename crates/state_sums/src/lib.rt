// What the states of sums share: settings, a count of words, and n full-width sums in eight places.
#![tactic(auto)]

ghost use Rattle.std.specs.Prelude.{◌≡◌, [], ◌∷◌, length};
ghost use Rattle.rows.specs.Written.{over};
ghost use Rattle.answers.specs.Answers.{Validates, afterwards};
ghost use Rattle.answers.specs.Refusals.{answer_of};
ghost use Rattle.answers.specs.Table.{tray_test};
ghost use Rattle.state_sums.specs.State.{settings_tests, begun, fit_sums, reading};
ghost use Rattle.state_sums.specs.Rows.{sums_of, sums_row};

use answers::{Refusal, table};

// The settings, a count, and n full-width sums. Unused places are zero: with no heap a state has the places of the longest.
#[derive(Clone, Copy)]
pub struct Accumulator {
    pub width: u32,
    pub kept: u32,
    pub n: u32,
    pub count: u32,
    pub sums: [u32; 8],
}

impl Accumulator {
    // Sums of no words yet. With zeros alone it stands for a refused opening's.
    #[tactic(auto, unfolding(crate::specs::State::begun))]
    pub fn new(w: u32, b: u32, n: u32, count: u32) -> Accumulator
        ensures { result ≡ begun w b n count }
    {
        Accumulator {
            width: w,
            kept: b,
            n,
            count,
            sums: [0; 8],
        }
    }

    // Whether it passes test 8, with the most that the count may be.
    pub fn fit(&self, most: usize) -> bool
        ensures { result ≡ fit_sums most self.now }
    {
        settings(self.width, self.kept, self.n).is_ok()
            && table::long(most, self.count as usize).is_ok()
            && range::fit_row(self.width, self.n as usize, &self.sums)
    }

    // The n sums with b bits kept into the first places of out, as many as it has.
    #[tactic(auto, unfolding(crate::specs::State::reading))]
    pub fn read(&self, out: &mut [u32])
        ensures { out.new ≡ over (reading self.now) out.old }
    {
        sum_terms::write_kept(self.kept, self.n as usize, self.sums, out);
    }

    // The same into a row with a place for each of them, else Tray and the row as it was.
    pub fn try_read(&self, out: &mut [u32]) -> Result<(), Refusal>
        ensures { (Validates (tray_test self.now.n (length out.old) ∷ []) (answer_of result))
            × (out.new ≡ afterwards (answer_of result) (reading self.now) out.old) }
    {
        table::tray(self.n as usize, out.len())?;
        self.read(out);
        Ok(())
    }

    // What a row's first twelve words hold, 0 past its end.
    #[tactic(auto, unfolding(crate::specs::Rows::sums_of))]
    pub fn from_row(row: &[u32]) -> Accumulator
        ensures { result ≡ sums_of row.now }
    {
        let mut sums = [0u32; 8];
        state_rows::read(row, 4, &mut sums);
        Accumulator {
            width: state_rows::word(row, 0),
            kept: state_rows::word(row, 1),
            n: state_rows::word(row, 2),
            count: state_rows::word(row, 3),
            sums,
        }
    }

    // Its twelve words over the row's first places, as many as it has.
    pub fn write_row(&self, row: &mut [u32])
        ensures { row.new ≡ over (sums_row self.now) row.old }
    {
        state_rows::place(row, 0, &[self.width, self.kept, self.n, self.count]);
        state_rows::place(row, 4, &self.sums);
    }
}

// Width, Kept, Count. Three numbers and no struct: they come apart through the C interface, each with a refusal of its own, and the
// definitions of the states name each.
pub fn settings(w: u32, b: u32, n: u32) -> Result<(), Refusal>
    ensures { Validates (settings_tests w b n) (answer_of result) }
{
    table::width(w)?;
    table::kept(w, b)?;
    table::count(n)
}
