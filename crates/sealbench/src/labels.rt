// The command label: what a label says, in plain words.
use crate::failure::Failure;
use byte_strings::hex_string;
use label::Label;
use std::fs;

// Says what the label in a file says, or which line is refused and what it should be.
pub(crate) fn run(rt: &HostRuntime, file: &str) -> Result<(), Failure> {
    let text = fs::read(rt, file)?;
    match Label::read(&text) {
        Ok(label) => print(rt, &label),
        Err(fault) => {
            let rule = rule(fault.place);
            eprintln!(rt; "sealbench: {file}: refused {fault}\n{rule}")?;
            Err(Failure::Told)
        }
    }
}

fn print(rt: &HostRuntime, label: &Label) -> Result<(), Failure> {
    let heap = rt.alloc();
    let layout = String::from_utf8_lossy(heap, label.layout.as_slice())?;
    let salt = hex_string(heap, label.salt.as_slice())?;
    let hash = label.variant;
    println!(rt; "layout    {layout}")?;
    println!(rt; "hash      {hash}, {} bytes", label.digest)?;
    match label.key {
        0 => println!(rt; "key       none")?,
        key => println!(rt; "key       {key} bytes")?,
    }
    println!(rt; "pages     {} bytes each", label.page)?;
    println!(rt;
        "tree      {} nodes to a parent, at most {} layers",
        label.fanout, label.depth
    )?;
    println!(rt; "salt      {salt}")?;
    Ok(())
}

// What a line of a label should be.
fn rule(line: usize) -> &'static str {
    match line {
        1 => "line 1 is kind=seal",
        2 => "line 2 is variant=b or variant=s",
        3 => "line 3 is digest= and a number from 1 to 64 (variant b) or 32 (variant s)",
        4 => "line 4 is keybytes= and a number from 0 to 64 (variant b) or 32 (variant s)",
        5 => "line 5 is fanout= and a number from 2 to 16",
        6 => "line 6 is depth= and a number from 2 to 13",
        7 => "line 7 is page= and a number from 64 to 4096",
        8 =>
            "line 8 is salt= and 32 (variant b) or 16 (variant s) hexadecimal digits in lower case",
        9 => "line 9 is layout= and 1 to 16 (variant b) or 8 (variant s) of A-Z, 0-9 and hyphen",
        _ => "a label ends with the line feed of line 9: cut off what follows it",
    }
}
