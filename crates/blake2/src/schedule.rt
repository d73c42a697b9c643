// The message schedule: which message word goes where in a round.
ghost use Rattle.std.specs.Prelude.{◌≡◌, ℕ, ◌<◌, ◌≤◌, true, [], take, slice_index, slice_index_or};
ghost use Rattle.blake2.specs.Schedule.{sigma, count, is_row};

static SIGMA: [[u8; 16]; 12] = [
    [0, 1, 2, 3, 4, 5, 6, 7, 8, 9, 10, 11, 12, 13, 14, 15],
    [14, 10, 4, 8, 9, 15, 13, 6, 1, 12, 0, 2, 11, 7, 5, 3],
    [11, 8, 12, 0, 5, 2, 15, 13, 10, 14, 3, 6, 7, 1, 9, 4],
    [7, 9, 3, 1, 13, 12, 11, 14, 2, 6, 5, 10, 4, 0, 15, 8],
    [9, 0, 5, 7, 2, 4, 10, 15, 14, 1, 11, 12, 6, 8, 3, 13],
    [2, 12, 6, 10, 0, 11, 8, 3, 4, 13, 7, 5, 15, 14, 1, 9],
    [12, 5, 1, 15, 14, 13, 4, 10, 0, 7, 6, 3, 9, 2, 8, 11],
    [13, 11, 7, 14, 12, 1, 3, 9, 5, 0, 15, 4, 8, 6, 2, 10],
    [6, 15, 14, 9, 11, 3, 0, 8, 12, 2, 13, 7, 1, 4, 10, 5],
    [10, 2, 8, 4, 7, 6, 1, 5, 15, 11, 9, 14, 3, 12, 13, 0],
    [0, 1, 2, 3, 4, 5, 6, 7, 8, 9, 10, 11, 12, 13, 14, 15],
    [14, 10, 4, 8, 9, 15, 13, 6, 1, 12, 0, 2, 11, 7, 5, 3],
];

// A row of the schedule: it holds each of 0 to 15 once.
#[derive(Clone, Copy)]
pub(crate) struct Row {
    pub(crate) entries: &'static [u8; 16],
    ghost rule: { is_row entries.now ≡ true },
}

impl Row {
    // An entry, as an index into the message words.
    pub(crate) fn entry(self, k: usize) -> usize
        requires { k < 16 }
        ensures value { result ≡ slice_index self.entries.now k }
        ensures bound { result < 16 }
    {
        self.entries[k] as usize
    }
}

// The first rows.
pub(crate) fn rows(n: usize) -> &'static [[u8; 16]]
    requires { n ≤ 12 }
    ensures { result.now ≡ take n sigma }
{
    &SIGMA[..n]
}

// The rule of the schedule, at each row i and each k: the number k stands in the row once, and the row's entry at k is a word's number.
pub fn schedule_holds_each_word_once()
    ensures once { (i k : ℕ) → i < 12 → k < 16 → count k (slice_index_or sigma i []) ≡ 1 }
    ensures below { (i k : ℕ) → i < 12 → k < 16 → slice_index (slice_index_or sigma i []) k < 16 }
{}
