// The report on the settings on standard input. One byte more than 64 settings have is read, so that more of them show. What is made of the
// bytes, and what is said of a failure, proved functions decide: here nothing is chosen.
#![tactic(auto)]

use streams::answer;

fn main(rt: HostRuntime) {
    let mut room = [0u8; report_text::INPUT + 1];
    answer(&rt, &mut room, |input| report_text::tell(input));
}
