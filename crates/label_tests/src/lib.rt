// Texts that are tried on the reader and the writer of labels.
#![tactic(auto)]

#[cfg(test)]
mod tests {
    use blake2::Variant;
    use fault::{Fault, Refusal};
    use label::Label;
    use std::test::Fail;

    const EXAMPLE: &[u8; 123] =
        b"kind=seal\nvariant=b\ndigest=32\nkeybytes=0\nfanout=4\ndepth=6\npage=1024\nsalt=00000000000000000000000000000000\nlayout=CLUTCH-07\n";

    // What a text is refused with.
    fn refusal(text: &[u8]) -> Option<(Refusal, usize)> {
        let fault = Label::read(text).err()?;
        Some((fault.number, fault.place))
    }

    #[test]
    fn the_example_is_read_and_written(rt: HostRuntime) -> Result<(), Fail> {
        let label = Label::read(EXAMPLE)?;
        assert_eq!(rt; label.variant, Variant::B);
        assert_eq!(rt; label.page, 1024);
        assert_eq!(rt; label.layout.as_slice(), b"CLUTCH-07".as_slice());
        assert_eq!(rt;
            label,
            Label::new(Variant::B, 32, 0, 4, 6, 1024, &[0; 16], b"CLUTCH-07")?
        );
        let mut out = [7; 125];
        assert_eq!(rt; label.write(&mut out)?, 123);
        assert_eq!(rt; &out[0..123], EXAMPLE.as_slice());
        assert!(rt; out[123] == 7 && out[124] == 7);
        let mut short = [7; 122];
        assert_eq!(rt;
            label.write(&mut short),
            Err(Fault::new(Refusal::LabelBuffer, 0))
        );
        assert!(rt; short == [7; 122]);
        Ok(())
    }

    #[test]
    fn refusals_name_the_line(rt: HostRuntime) {
        assert_eq!(rt; refusal(b""), Some((Refusal::LineForm, 1)));
        assert_eq!(rt; refusal(b"kind=seal"), Some((Refusal::LineForm, 1)));
        assert_eq!(rt;
            refusal(b"kind=seal\nvariant=c\n"),
            Some((Refusal::LineForm, 2))
        );
        assert_eq!(rt;
            refusal(b"kind=seal\nvariant=b\ndigest=033\n"),
            Some((Refusal::LineForm, 3))
        );
        assert_eq!(rt;
            refusal(b"kind=seal\nvariant=b\ndigest=10240\n"),
            Some((Refusal::LineForm, 3))
        );
        assert_eq!(rt;
            refusal(b"kind=seal\nvariant=s\ndigest=33\n"),
            Some((Refusal::NumberRange, 3))
        );
        assert_eq!(rt;
            refusal(b"kind=seal\nvariant=b\ndigest=64\nkeybytes=65\n"),
            Some((Refusal::NumberRange, 4))
        );
        assert_eq!(rt;
            refusal(
                b"kind=seal\nvariant=s\ndigest=32\nkeybytes=32\nfanout=16\ndepth=13\npage=63\n",
            ),
            Some((Refusal::NumberRange, 7))
        );
        assert_eq!(rt;
            refusal(b"kind=seal\nvariant=s\ndigest=1\nkeybytes=0\nfanout=2\ndepth=2\npage=4097\n"),
            Some((Refusal::NumberRange, 7))
        );
    }

    #[test]
    fn variant_s_has_a_shorter_salt_and_layout(rt: HostRuntime) -> Result<(), Fail> {
        let label = Label::new(Variant::S, 32, 32, 2, 13, 64, &[171; 8], b"GEAR-001")?;
        let text = label.text();
        assert_eq!(rt; Label::read(text.as_slice())?, label);
        assert_eq!(rt;
            Label::new(Variant::S, 32, 32, 2, 13, 64, &[171; 16], b"GEAR-001"),
            Err(Fault::new(Refusal::LineForm, 8))
        );
        assert_eq!(rt;
            Label::new(Variant::S, 32, 32, 2, 13, 64, &[171; 8], b"GEAR-0012"),
            Err(Fault::new(Refusal::LineForm, 9))
        );
        assert_eq!(rt;
            Label::new(Variant::S, 32, 32, 2, 14, 64, &[171; 8], b"GEAR-001"),
            Err(Fault::new(Refusal::NumberRange, 6))
        );
        Ok(())
    }

    #[test]
    fn what_follows_nine_lines_is_left(rt: HostRuntime) -> Result<(), Fail> {
        let mut longer = [b'x'; 130];
        longer[0..123].copy_from_slice(EXAMPLE);
        assert_eq!(rt; refusal(&longer), Some((Refusal::BytesLeft, 10)));
        let (label, length) = Label::read_front(&longer)?;
        assert_eq!(rt; length, 123);
        assert_eq!(rt; label, Label::read(EXAMPLE)?);
        Ok(())
    }

    // 871 of the changes spell another label: 14 of the digest, 9 of the key, 7 of the fanout, 7 of the depth, 30 of the page, 15 at each of the 32 digits of the salt, and 36 at each of the 9 bytes of the layout.
    #[test]
    fn a_changed_byte_is_refused_or_spells_another_label(rt: HostRuntime) -> Result<(), Fail> {
        let mut accepted = 0u32;
        for (i, old) in EXAMPLE.iter().enumerate() {
            for c in 0..=255u8 {
                if c == *old {
                    continue;
                }
                let mut text = *EXAMPLE;
                text[i] = c;
                if let Ok(label) = Label::read(&text) {
                    let mut out = [0; 123];
                    assert_eq!(rt; label.write(&mut out)?, 123);
                    assert!(rt; out == text);
                    accepted = accepted.saturating_add(1);
                }
            }
        }
        assert_eq!(rt; accepted, 871);
        Ok(())
    }
}
