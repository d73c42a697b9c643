// Digests published vectors, and says of each whether it comes out as published. The vectors come on standard input, a line each.
#![tactic(auto)]

use anyhow::ensure;

mod selftest;
mod vector;

fn main(rt: HostRuntime) -> anyhow::Result<()> {
    run(&rt)
}

fn run(rt: &HostRuntime) -> anyhow::Result<()> {
    let mut right = true;
    for line in rt.lines(rt.alloc()) {
        let line = line?;
        let text = line.as_str();
        if !text.is_empty() && !text.starts_with("#") {
            right &= vector::try_line(rt, text)?;
        }
    }
    right &= selftest::try_both(rt)?;
    ensure!(right, "a vector does not come out as published");
    println!(rt; "all come out as published")?;
    Ok(())
}
