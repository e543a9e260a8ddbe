// The report as a whole.
ghost use Rattle.std.specs.Prelude.{◌≡◌, Err};
ghost use Rattle.report.specs.Report.{are_settings, number_of, outcome_of, reported_of};

use crate::rows::{ROW, put_row, put_rows};
use setting::BYTES;

// The most settings that a report takes.
pub const MOST: usize = 64;

// Their bytes.
pub const INPUT: usize = MOST * BYTES;

// Whether so many bytes are whole settings, one at least and no more than a report takes.
#[tactic(auto, unfolding(crate::specs::Report::are_settings))]
fn are_settings(n: usize) -> bool
    ensures { result ≡ are_settings n }
{
    (0 < n) & (n <= INPUT) & (n % BYTES == 0)
}

// Why bytes have no report: they are no such settings, or there are too few places.
#[derive(Clone, Copy, PartialEq, Eq)]
pub enum Refusal {
    Settings,
    Places,
}

// The number of a refusal.
impl From<Refusal> for u8 {
    ghost from_gives = { λ refusal number. number ≡ number_of (Err refusal) };

    fn from(refusal: Refusal) -> u8 {
        match refusal {
            Refusal::Settings => 10,
            Refusal::Places => 11,
        }
    }
}

// A row for each setting and a row of totals, from the first place on. After a refusal every place is as it was.
pub fn report(settings: &[u8], out: &mut [u64]) -> Result<(), Refusal>
    ensures said { result ≡ outcome_of settings.now out.old }
    ensures laid { out.new ≡ reported_of settings.now out.old }
    ensures kept { settings.exit.now ≡ settings.entry.now }
{
    if !are_settings(settings.len()) {
        return Err(Refusal::Settings);
    }
    let n = settings.len() / BYTES;
    if out.len() < ROW * (n + 1) {
        return Err(Refusal::Places);
    }
    let total = put_rows(out, settings);
    put_row(out, ROW * n, total);
    Ok(())
}
