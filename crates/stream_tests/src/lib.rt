// Tests of the streams: what is proved, seen once at work.
#![tactic(auto)]

#[cfg(test)]
mod tests {
    use fault::{Fault, Refusal};
    use std::test::Fail;
    use stream::Stream;

    // A refused begin gives a stream of one byte without a key.
    #[test]
    fn refused_begin_gives_the_least_stream(rt: HostRuntime) -> Result<(), Fail> {
        assert_eq!(rt;
            Stream::<u64>::check(65, b"key"),
            Err(Fault::new(Refusal::DigestLength, 0))
        );
        assert_eq!(rt;
            Stream::<u32>::check(32, &[0; 33]),
            Err(Fault::new(Refusal::KeyLength, 0))
        );
        let mut stream = Stream::<u64>::begin(65, b"key");
        stream.add(b"abc")?;
        let mut out = [0u8; 1];
        assert_eq!(rt; stream.finish(&mut out), Ok(1));
        let mut least = [0u8; 1];
        assert_eq!(rt; stream::digest::<u64>(1, &[], b"abc", &mut least), Ok(1));
        assert_eq!(rt; out, least);
        Ok(())
    }

    // A refused finish leaves the output.
    #[test]
    fn refused_finish_keeps_the_output(rt: HostRuntime) {
        let mut out = [7u8; 31];
        let answer = Stream::<u32>::begin(32, &[]).finish(&mut out);
        assert_eq!(rt; answer, Err(Fault::new(Refusal::DigestBuffer, 0)));
        assert_eq!(rt; out, [7u8; 31]);
    }

    // However the bytes are cut, the digest is the same, and so is the number of compressions.
    #[test]
    fn pieces_join(rt: HostRuntime) {
        let bytes = [5u8; 300];
        let mut whole = [0u8; 20];
        let mut cut = [0u8; 20];
        assert_eq!(rt;
            stream::digest::<u32>(20, b"key", &bytes, &mut whole),
            Ok(6)
        );
        let pieces = [
            &bytes[0..1],
            &bytes[1..128],
            &bytes[128..128],
            &bytes[128..300],
        ];
        assert_eq!(rt;
            stream::digest_pieces::<u32>(20, b"key", &pieces, &mut cut),
            Ok(6)
        );
        assert_eq!(rt; whole, cut);
    }

    // A fault prints its line.
    #[test]
    fn a_fault_says_what_is_wrong(rt: HostRuntime) -> Result<(), Fail> {
        let text = format!(in rt.alloc(); "{}", Fault::new(Refusal::NumberRange, 7))?;
        assert!(rt;
            text.as_str() == "22 label 7: the number on this line of the label is outside its range"
        );
        Ok(())
    }
}
