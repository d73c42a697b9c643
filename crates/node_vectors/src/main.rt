// Hashes nodes of trees. A line of standard input says one node, in twelve words, - for no bytes:
//
//     VARIANT DIGEST KEY FANOUT DEPTH PAGE SALT LAYOUT NODE-DEPTH NODE-OFFSET LAST INPUT
//
// VARIANT is b or s, and any other word counts as s; KEY, SALT and INPUT are hexadecimal; LAYOUT is a layout name; LAST is 1 on the last node of a layer, else 0; the others are decimal numbers.
// The label's key length is that of KEY. A line of output has the digest, hexadecimal, and the number of blocks, or the word refused and the fault. Lines that are empty or begin with # are passed over.

#![tactic(auto)]

mod node;

fn main(rt: HostRuntime) -> anyhow::Result<()> {
    for line in rt.lines(rt.alloc()) {
        let line = line?;
        if !line.is_empty() && !line.starts_with('#') {
            node::answer(&rt, &line)?;
        }
    }
    Ok(())
}
