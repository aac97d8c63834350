// The listing program (W7, W8, W9, W10). Its input is a table of up to 14 slots; it prints a line for each used one, or
// the number of a refusal. What it prints is said by the crate printout; reading and writing are all that it does itself.
// A read or a write that fails ends it with that error.
#![tactic(auto)]

use std::io;

// Room for more than 14 slots, so that longer input is seen to be longer (W7).
const MOST_INPUT: usize = 65536;

fn main(rt: HostRuntime) -> io::Result<()> {
    let mut space = [0u8; MOST_INPUT];
    let given = input::read_full(&mut rt.reader(), &mut space)?;
    let mut out = [0u8; printout::ROOM];
    let n = printout::print(&space[0..given], &mut out);
    rt.write_all(&out[0..n])
}
