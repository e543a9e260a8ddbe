// Rows of seven places.
ghost use Rattle.std.specs.Prelude.{◌≡◌, ◌+◌, ◌*◌, ◌≤◌, length};
ghost use Rattle.basics.specs.Lay.{laid_at};
ghost use Rattle.setting.specs.Setting.{bytes};
ghost use Rattle.tally.specs.Tally.{AtMost};
ghost use Rattle.report.specs.Report.{most, row, row_of, places_of, totals_of, settings_in, tallies_of};
ghost use Rattle.report.specs.private.Joined.{joined_of};

use setting::{BYTES, start};
use tally::{Tally, count_frame};

// How many places a row has.
pub const ROW: usize = 7;

// The seven numbers in the order of a row.
#[tactic(auto, unfolding(crate::specs::Report::row_of))]
fn row_of(k: Tally) -> [u64; ROW]
    ensures { result ≡ row_of k }
{
    [
        k.picture, k.display, k.cursor, k.hsync, k.vsync, k.changed, k.most,
    ]
}

// Lays a row from at on. The places are the caller's, and what they hold besides is promised.
#[tactic(auto, using(basics::proofs::Laying::part_laid, crate::proofs::Totals::row_long))]
pub(crate) fn put_row(out: &mut [u64], at: usize, k: Tally)
    requires { at + row ≤ length out.old }
    ensures { out.new ≡ laid_at out.old at (row_of k) }
{
    out[at..at + ROW].copy_from_slice(&row_of(k));
}

// The totals with one row more: the sums, and the greater of the two largest changes.
#[tactic(auto, unfolding(crate::specs::private::Joined::joined_of))]
fn joined(total: Tally, one: Tally) -> Tally
    requires at_most { AtMost 1099511627776 total }
    requires at_most_2 { AtMost 1099511627776 one }
    ensures { result ≡ joined_of total one }
{
    Tally {
        picture: total.picture + one.picture,
        display: total.display + one.display,
        cursor: total.cursor + one.cursor,
        hsync: total.hsync + one.hsync,
        vsync: total.vsync + one.vsync,
        changed: total.changed + one.changed,
        most: total.most.max(one.most),
    }
}

// Lays the row of each setting and gives their totals.
pub(crate) fn put_rows(out: &mut [u64], settings: &[u8]) -> Tally
    requires n_le_most { settings_in settings.now ≤ most }
    requires n_in_bounds { row * settings_in settings.now ≤ length out.old }
    ensures laid { out.new ≡ laid_at out.old 0 (places_of (tallies_of settings.now (settings_in settings.now))) }
    ensures totals { result ≡ totals_of (tallies_of settings.now (settings_in settings.now)) }
{
    let mut total = Tally::none();
    for (k, setting) in settings.chunks_exact(BYTES).enumerate() {
        let one = count_frame(start(setting));
        put_row(out, ROW * k, one);
        total = joined(total, one);
    }
    total
}
