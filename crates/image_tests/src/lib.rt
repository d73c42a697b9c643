// Images of every kind, through the interface that all have.
#![tactic(auto)]

ghost use Rattle.std.specs.Prelude.{◌≡◌, false, length, is_ok, OnOk, OnErr};
ghost use Rattle.bench.specs.Benches.{bench_made};
ghost use Rattle.bench.specs.Buffers.{cut};
ghost use Rattle.image.specs.Answers.{write_answer, written};

use bench::BenchImage;
use fault::Fault;
use image::EditableImage;

// Puts a page by the interface alone.
fn put<I: EditableImage>(image: &mut I, page: usize, bytes: &[u8]) -> Result<(), Fault>
    ensures answer { result ≡ write_answer (I.Image.meaning image.old) page (length bytes.now) }
    ensures after { I.Image.meaning image.new ≡ written (I.Image.meaning image.old) page bytes.now }
    ensures frame { I.Image.frame image.new ≡ I.Image.frame image.old }
    ensures kept { is_ok result ≡ false → image.new ≡ image.old }
{
    image.write(page, bytes)
}

// One who lends a buffer to an image has it back with what `put` wrote, and nothing else is changed.
pub fn put_in_lent(
    size: usize,
    locked: usize,
    buffer: &mut [u8],
    page: usize,
    bytes: &[u8],
) -> Result<(), Fault>
    ensures answer { result ≡ write_answer (bench_made size locked buffer.old) page (length bytes.now) }
    ensures after { bench_made size locked buffer.new ≡ written (bench_made size locked buffer.old) page bytes.now }
    ensures put { OnOk result (cut size buffer.new page ≡ bytes.now) }
    ensures refused { OnErr result (buffer.new ≡ buffer.old) }
{
    let mut image = BenchImage::make(size, locked, buffer);
    put(&mut image, page, bytes)
}

#[cfg(test)]
mod tests {
    use bench::{BenchImage, ChipDump};
    use fault::{Fault, Refusal};
    use image::{EditableImage, Image, Lent};
    use pair::Pair;
    use std::process::Abort;

    // An answer without the fault's module: what is refused, and at which place.
    fn outcome(answer: Result<(), Fault>) -> Result<(), (Refusal, usize)> {
        answer.map_err(|fault| (fault.number, fault.place))
    }

    // Rows of a page, its length, whether it is readable, and whether it is locked.
    fn ask<I: Image>(rt: &impl Abort, image: &I, rows: &[(usize, usize, bool, bool)]) {
        for &(page, len, readable, locked) in rows {
            assert_eq!(rt; image.length_of(page), len);
            assert_eq!(rt; image.is_readable(page), readable);
            assert_eq!(rt; image.is_locked(page), locked);
        }
    }

    // Rows of a page, a buffer's length, what a read answers, and the first byte of the buffer, 7 before, after it.
    fn read<I: Image>(
        rt: &impl Abort,
        image: &I,
        rows: &[(usize, usize, Result<(), Refusal>, u8)],
    ) {
        for &(page, len, answer, first) in rows {
            let mut out = [7; 65];
            assert!(rt; 0 < len && len <= 65);
            assert_eq!(rt;
                outcome(image.read(page, &mut out[0..len])),
                answer.map_err(|refusal| (refusal, page))
            );
            assert_eq!(rt; out[0], first);
        }
    }

    // Rows of a page, how many bytes are written, all 9, and what this answers.
    fn write<I: EditableImage>(
        rt: &impl Abort,
        image: &mut I,
        rows: &[(usize, usize, Result<(), Refusal>)],
    ) {
        for &(page, len, answer) in rows {
            let bytes = [9; 65];
            assert!(rt; len <= 65);
            assert_eq!(rt;
                outcome(image.write(page, &bytes[0..len])),
                answer.map_err(|refusal| (refusal, page))
            );
        }
    }

    // Two benches and a dump: page 0 is locked, 3 too, 4 is unreadable, and 6 is short.
    #[test]
    fn pairs_of_pairs_are_read(rt: HostRuntime) {
        let mut front = [1; 128];
        let middle = [2; 192];
        let mut back = [3; 100];
        let inner = Pair::make(
            BenchImage::make(64, 1, &mut front),
            ChipDump::make(64, &[0, 1, 2], &middle),
        );
        let image = Pair::make(inner, BenchImage::make(64, 0, &mut back));
        let image = Lent::of(&image);
        assert_eq!(rt; image.page_length(), 64);
        assert_eq!(rt; image.page_count(), 7);
        ask(
            &rt,
            &image,
            &[
                (0, 64, true, true),
                (1, 64, true, false),
                (2, 64, true, false),
                (3, 64, true, true),
                (4, 64, false, false),
                (5, 64, true, false),
                (6, 36, true, false),
                (7, 0, false, false),
            ],
        );
        read(
            &rt,
            &image,
            &[
                (0, 64, Ok(()), 1),
                (1, 65, Err(Refusal::PageBuffer), 7),
                (3, 64, Ok(()), 2),
                (4, 63, Err(Refusal::PageBuffer), 7),
                (4, 64, Err(Refusal::PageUnreadable), 7),
                (5, 64, Ok(()), 3),
                (6, 36, Ok(()), 3),
                (6, 64, Err(Refusal::PageBuffer), 7),
                (7, 64, Err(Refusal::PageAbsent), 7),
            ],
        );
    }

    // Pages 0 and 3 are locked, and 4 is short.
    #[test]
    fn writes_land_in_the_buffers(rt: HostRuntime) {
        let mut front = [1; 128];
        let mut middle = [2; 64];
        let mut back = [3; 100];
        let inner = Pair::make(
            BenchImage::make(64, 0, &mut middle),
            BenchImage::make(64, 1, &mut back),
        );
        let mut image = Pair::make(BenchImage::make(64, 1, &mut front), inner);
        write(
            &rt,
            &mut image,
            &[
                (0, 64, Err(Refusal::PageLocked)),
                (1, 64, Ok(())),
                (2, 63, Err(Refusal::PageBuffer)),
                (3, 64, Err(Refusal::PageLocked)),
                (3, 65, Err(Refusal::PageBuffer)),
                (4, 36, Ok(())),
                (4, 64, Err(Refusal::PageBuffer)),
                (5, 36, Err(Refusal::PageAbsent)),
            ],
        );
        read(
            &rt,
            &image,
            &[
                (0, 64, Ok(()), 1),
                (1, 64, Ok(()), 9),
                (2, 64, Ok(()), 2),
                (3, 64, Ok(()), 3),
                (4, 36, Ok(()), 9),
            ],
        );
        assert!(rt; front[63] == 1 && front[64] == 9 && front[127] == 9);
        assert!(rt; middle[0] == 2 && middle[63] == 2);
        assert!(rt; back[63] == 3 && back[64] == 9 && back[99] == 9);
    }

    // A bench image of `len` bytes: what its check answers, and what is made.
    fn bench(rt: &impl Abort, size: usize, locked: usize, len: usize, answer: Result<(), Refusal>) {
        let mut bytes = [0; 262145];
        assert!(rt; len <= 262145);
        assert_eq!(rt;
            outcome(BenchImage::check(size, locked, &bytes[0..len])),
            answer.map_err(|refusal| (refusal, 0))
        );
        let image = BenchImage::make(size, locked, &mut bytes[0..len]);
        assert_eq!(rt; image.page_count() == 0, answer.is_err());
        assert_eq!(rt; image.page_length(), if answer.is_ok() { size } else { 64 });
    }

    #[test]
    fn benches_are_checked(rt: HostRuntime) {
        let rows = [
            (63, 0, 128, Err(Refusal::ImageShape)),
            (4097, 0, 8192, Err(Refusal::ImageShape)),
            (64, 5000, 0, Err(Refusal::ImageShape)),
            (64, 0, 262145, Err(Refusal::ImageShape)),
            (64, 4096, 262144, Ok(())),
            (64, 3, 100, Err(Refusal::LockedPages)),
            (64, 2, 100, Ok(())),
            (4096, 1, 1, Ok(())),
        ];
        for &(size, locked, len, answer) in &rows {
            bench(&rt, size, locked, len, answer);
        }
    }

    #[test]
    fn dumps_are_checked(rt: HostRuntime) {
        let bytes = [0; 100];
        let rows: [(usize, &[u8], Result<(), Refusal>); 5] = [
            (64, &[0, 2], Ok(())),
            (64, &[0, 3], Err(Refusal::PageStates)),
            (64, &[0], Err(Refusal::PageStates)),
            (64, &[0, 0, 0], Err(Refusal::PageStates)),
            (63, &[3], Err(Refusal::ImageShape)),
        ];
        for &(size, states, answer) in &rows {
            assert_eq!(rt;
                outcome(ChipDump::check(size, states, &bytes)),
                answer.map_err(|refusal| (refusal, 0))
            );
        }
        let none = ChipDump::make(64, &[0, 3], &bytes);
        assert_eq!(rt; none.page_count(), 0);
        assert_eq!(rt; none.page_length(), 64);
        read(&rt, &none, &[(0, 64, Err(Refusal::PageAbsent), 7)]);
    }

    // What the check of a pair answers.
    fn check<A: Image, B: Image>(
        rt: &impl Abort,
        first: &A,
        second: &B,
        answer: Result<(), Refusal>,
    ) {
        assert_eq!(rt;
            outcome(Pair::check(first, second)),
            answer.map_err(|refusal| (refusal, 0))
        );
    }

    #[test]
    fn pairs_are_checked(rt: HostRuntime) {
        let short = [0; 100];
        let whole = [0; 128];
        let many = [0; 262144];
        let states = [0; 4096];
        let two = ChipDump::make(64, &[0, 0], &whole);
        let one = ChipDump::make(128, &[0], &whole);
        let ragged = ChipDump::make(64, &[0, 0], &short);
        let full = ChipDump::make(64, &states, &many);
        let none = ChipDump::make(64, &[3], &whole);
        check(&rt, &two, &ragged, Ok(()));
        check(&rt, &ragged, &two, Err(Refusal::PairParts));
        check(&rt, &two, &one, Err(Refusal::PairParts));
        check(&rt, &two, &none, Err(Refusal::PairParts));
        check(&rt, &none, &two, Err(Refusal::PairParts));
        check(&rt, &two, &full, Err(Refusal::PairParts));
        let refused = Pair::make(ragged, two);
        assert_eq!(rt; refused.page_count(), 0);
        assert_eq!(rt; refused.page_length(), 64);
        read(
            &rt,
            &refused,
            &[
                (0, 64, Err(Refusal::PageAbsent), 7),
                (1, 64, Err(Refusal::PageAbsent), 7),
            ],
        );
    }
}
