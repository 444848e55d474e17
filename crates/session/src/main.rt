// Runs a session with a packet memory. Reads it from standard input, `session < FILE`: frames in hexadecimal, one a line, each of which sets
// up the memory, writes or releases a row, or reads packets. Answers each line by a line on standard output, with a refusal and its number
// where it cannot be done. Of a text longer than 32,768 bytes only these are read, and a line on standard error says so [session.cut].
// The exit status is 0, refusals or not, and 1 where reading the input or writing an answer fails.
#![tactic(auto)]

use std::io;

fn main(rt: HostRuntime) -> io::Result<()> {
    console::run(&rt)
}
