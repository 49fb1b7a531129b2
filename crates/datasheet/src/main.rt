// Prints the figures of the set of points that standard input writes.
#![tactic(auto)]

use std::io;
use std::io::Read;

fn main(rt: HostRuntime) -> io::Result<()> {
    let mut text = Vec::new(rt.alloc());
    rt.stdin().read_to_end(&mut text)?;
    let answer = sheet::answer(rt.alloc(), text.as_slice())?;
    rt.print(answer)
}
