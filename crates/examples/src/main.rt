//! What a caller proves of types that it wrote. An amount is sent as a parameter and read out of
//! rows, and each row becomes a struct. docs/EXAMPLES.md shows them. Its other programs are run
//! without proofs.
#![tactic(auto)]

mod cents;
mod converting;

use std::{fs, io};

fn main(rt: HostRuntime) -> io::Result<()> {
    let mut out = io::writer(&rt);
    let reply = fs::read(&rt, "reply.bin")?;
    converting::run(rt.alloc(), &reply, &mut out)
}
