// A batch on standard input, behind two bytes that say how long its output is: what a replay leaves there. One byte more than a batch may
// have is read, so that a longer one shows. What is made of the bytes, and what is said of a failure, proved functions decide: here
// nothing is chosen.
#![tactic(auto)]

use streams::answer;

fn main(rt: HostRuntime) {
    let mut room = [0u8; rooms_text::INPUT + 1];
    answer(&rt, &mut room, |input| rooms_text::room(input));
}
