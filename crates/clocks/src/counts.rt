// How far a counter can count on, and counts that stop at 0.
ghost use Rattle.std.specs.Prelude.{◌≡◌, ◌+◌, ◌*◌, ◌-◌};
ghost use Rattle.clocks.specs.private.Skip.{Clear, LineTimes};

// The character times of m lines whose last column is `end`.
pub(crate) fn line_times(m: u8, end: u8) -> u16
    ensures { LineTimes end m result }
{
    (m as u16) * ((end as u16) + 1)
}

// A count x, fallen at each character of such lines.
pub(crate) fn less_lines(x: u8, m: u8, end: u8) -> u8
    ensures { result ≡ x - m * (end + 1) }
{
    (x as u16).saturating_sub(line_times(m, end)) as u8
}

// How often a counter at `at` can count on before it stands at `end`, or at `top` where it would wrap.
pub(crate) fn clear(at: u8, end: u8, top: u8) -> u8
    ensures { Clear top end at result }
{
    let room = top.saturating_sub(at);
    if end < at { room } else { room.min(end - at) }
}
