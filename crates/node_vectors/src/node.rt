// One node: its label and key, its position in the tree, and its input.
use anyhow::Context;
use blake2::Variant;
use blake2_node::{Blake2bNode, Blake2sNode};
use byte_strings::{Bytes, hex_string};
use fault::Fault;
use label::Label;
use nodehash::{NodeHash, Position};
use std::str::SplitWhitespace;

#[derive(Drop)]
struct Node {
    label: Result<Label, Fault>,
    key: Bytes<64>,
    position: Position,
    last: bool,
    input: Bytes<4096>,
}

// Hashes the node of a line, and prints its digest and blocks.
pub(crate) fn answer(rt: &HostRuntime, line: &str) -> anyhow::Result<()> {
    let node = Node::read(&mut line.split_whitespace())?;
    match &node.label {
        Ok(label) => node.print(rt, *label)?,
        Err(fault) => println!(rt; "refused {fault}")?,
    }
    Ok(())
}

impl Node {
    fn read(words: &mut SplitWhitespace) -> anyhow::Result<Node> {
        let variant = Variant::try_from(word(words)?.as_bytes()).unwrap_or(Variant::S);
        let digest = word(words)?.parse::<u8>()?;
        let key = bytes::<64>(word(words)?)?;
        let fanout = word(words)?.parse::<u8>()?;
        let depth = word(words)?.parse::<u8>()?;
        let page = word(words)?.parse::<u16>()?;
        let salt = bytes::<16>(word(words)?)?;
        let layout = word(words)?.as_bytes();
        Ok(Node {
            label: Label::new(
                variant,
                digest,
                key.len() as u8,
                fanout,
                depth,
                page,
                salt.as_slice(),
                layout,
            ),
            key,
            position: Position {
                depth: word(words)?.parse::<u8>()?,
                offset: word(words)?.parse::<u32>()?,
            },
            last: word(words)? == "1",
            input: bytes::<4096>(word(words)?)?,
        })
    }

    fn print(&self, rt: &HostRuntime, label: Label) -> anyhow::Result<()> {
        let mut out = vec![in rt.alloc(); 0u8; usize::from(label.digest)]?;
        let key = self.key.as_slice();
        let answer = match label.variant {
            Variant::B => self.hash(&Blake2bNode::new(label, key), &mut out),
            Variant::S => self.hash(&Blake2sNode::new(label, key), &mut out),
        };
        match answer {
            Ok(blocks) => {
                let digest = hex_string(rt.alloc(), &out)?;
                println!(rt; "{digest} {blocks}")?;
            },
            Err(fault) => println!(rt; "refused {fault}")?,
        }
        Ok(())
    }

    fn hash<H: NodeHash>(&self, by: &H, out: &mut [u8]) -> Result<u64, Fault> {
        by.hash(self.position, self.last, self.input.as_slice(), out)
    }
}

fn word<'a>(words: &mut SplitWhitespace<'a>) -> anyhow::Result<&'a str> {
    words.next().context("a word is missing")
}

fn bytes<const N: usize>(digits: &str) -> anyhow::Result<Bytes<N>> {
    if digits == "-" {
        return Ok(Bytes::new());
    }
    Bytes::from_hex(digits.as_bytes()).context("not hexadecimal digits, or too many")
}
