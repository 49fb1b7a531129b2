// Runs the cases in data/: for each name on standard input, does the answer to NAME.in equal NAME.out?
#![tactic(auto)]

use std::{fs, io};

fn main(rt: HostRuntime) -> io::Result<()> {
    for line in rt.lines(rt.alloc()) {
        let name = line?;
        let passed = passes(&rt, name.as_str())?;
        let verdict = if passed { "ok" } else { "differs" };
        println!(rt; "{name} {verdict}")?;
    }
    Ok(())
}

fn passes(rt: &HostRuntime, name: &str) -> io::Result<bool> {
    let input = format!(in rt.alloc(); "{name}.in")?;
    let output = format!(in rt.alloc(); "{name}.out")?;
    let text = fs::read(rt, input.as_str())?;
    let expected = fs::read(rt, output.as_str())?;
    let answer = sheet::answer(rt.alloc(), text.as_slice())?;
    Ok(answer.as_bytes() == expected.as_slice())
}
