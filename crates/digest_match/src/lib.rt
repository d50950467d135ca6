// The match of two digests.
#![tactic(auto)]

ghost use Rattle.std.specs.Prelude.{◌≡◌};
ghost use Rattle.answers.specs.Refusals.{match_answer_of};
ghost use Rattle.digest_match.specs.Match.{match_answer, differing};

use answers::{Refusal, Verdict, table};

// Whether the two rows of n words agree at every place, or the first refusal.
pub fn digests_match(n: u32, first: &[u32], second: &[u32]) -> Result<Verdict, Refusal>
    ensures { match_answer_of result ≡ match_answer n first.now second.now }
{
    table::count(n)?;
    table::match_tray(n as usize, first.len(), second.len())?;
    if unlike(first, second) == 0 {
        return Ok(Verdict::Match);
    }
    Ok(Verdict::NoMatch)
}

// All bits in which some place differs: 0 exactly where the rows agree. It looks at every place, whatever it finds.
fn unlike(first: &[u32], second: &[u32]) -> u32
    ensures { result ≡ differing first.now second.now }
{
    first
        .iter()
        .zip(second)
        .fold(0, |bits, (a, b)| bits | (*a ^ *b))
}
