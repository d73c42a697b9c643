// The example that runs where no command is given: streams from beginning to end, and what they refuse.
use crate::failure::Failure;
use byte_strings::hex_string;
use stream::Stream;

const LAYOUT: &[u8; 9] = b"CLUTCH-07";

pub(crate) fn run(rt: &HostRuntime) -> Result<(), Failure> {
    println!(rt; "The layout name CLUTCH-07, digested in one piece and in two:")?;
    whole(rt)?;
    pieces(rt)?;
    println!(rt; "The same under the key 'bench 4', by BLAKE2s, 16 bytes:")?;
    keyed(rt)?;
    println!(rt; "What is refused:")?;
    refused(rt)
}

fn whole(rt: &HostRuntime) -> Result<(), Failure> {
    let mut digest = [0u8; 32];
    let blocks = stream::digest::<u64>(32, &[], LAYOUT, &mut digest)?;
    print(rt, "BLAKE2b", &digest, blocks)
}

fn pieces(rt: &HostRuntime) -> Result<(), Failure> {
    let mut digest = [0u8; 32];
    let mut stream = Stream::<u64>::begin(32, &[]);
    stream.add(b"CLUTCH")?;
    stream.add(b"-07")?;
    let blocks = stream.finish(&mut digest)?;
    print(rt, "BLAKE2b", &digest, blocks)
}

fn keyed(rt: &HostRuntime) -> Result<(), Failure> {
    let mut digest = [0u8; 16];
    let blocks = stream::digest::<u32>(16, b"bench 4", LAYOUT, &mut digest)?;
    print(rt, "BLAKE2s", &digest, blocks)
}

// One line: the digest, and how many compressions it took.
fn print(rt: &HostRuntime, name: &str, digest: &[u8], blocks: u64) -> Result<(), Failure> {
    let text = hex_string(rt.alloc(), digest)?;
    let unit = if blocks == 1 {
        "compression"
    } else {
        "compressions"
    };
    println!(rt; "  {name}  {text}  {blocks} {unit}")?;
    Ok(())
}

fn refused(rt: &HostRuntime) -> Result<(), Failure> {
    let mut short = [0u8; 31];
    let answers = [
        Stream::<u64>::check(65, &[]),
        Stream::<u32>::check(32, &[7; 33]),
        Stream::<u32>::begin(32, &[]).finish(&mut short).map(|_| ()),
    ];
    for fault in answers.iter().filter_map(|answer| answer.err()) {
        println!(rt; "  {fault}")?;
    }
    Ok(())
}
