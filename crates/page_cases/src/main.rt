// Tells of each page on standard input whether it is lawful. A line has the kind, `d` for a directory page or `b` for a bucket page, the number of pages of the store,
// the level of the box, its lower ends with commas between them, and the bytes in hexadecimal without the zeros at the end; `-` stands for no byte.
#![tactic(auto)]

mod page_case;

use page_case::PageCase;
use std::io;

fn main(rt: HostRuntime) -> io::Result<()> {
    for line in rt.lines(rt.alloc()) {
        let line = line?;
        let verdict = PageCase::read(line.as_bytes()).map_or("?", |case| case.verdict());
        println!(rt; "{verdict}")?;
    }
    Ok(())
}
