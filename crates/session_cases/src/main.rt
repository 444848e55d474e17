// Runs a session as the program session does, on the text beside it, which reaches every refusal that a session can give, and every answer,
// and is longer than the 32,768 bytes that are read. It is the same program twice, since the gate runs a program on one text.
#![tactic(auto)]

use std::io;

fn main(rt: HostRuntime) -> io::Result<()> {
    console::run(&rt)
}
