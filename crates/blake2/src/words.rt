// Words in a row, seen by contracts as the list of their values: a chain value has 8, a block and a working vector have 16.
ghost use Rattle.std.specs.Prelude.{◌≡◌, map, length};

use crate::Word;
use std::marker::Model;

#[derive(Drop)]
pub struct Words<W: Word, const N: usize> {
    pub(crate) words: [W; N],
}

impl<W: Word, const N: usize> Model for Words<W, N> {
    ghost use Rattle.std.specs.Prelude.{ℕ, List, map};

    ghost Value = { List ℕ };

    ghost view = { λ a. map W.value a.words };
}

impl<W: Word, const N: usize> Words<W, N> {
    // The words, one after another.
    pub fn new(words: [W; N]) -> Words<W, N>
        ensures { result ≡ map W.Word.value words }
    {
        Words { words }
    }

    // The words that it has.
    pub fn as_slice(&self) -> &[W]
        ensures value { map W.Word.value result.now ≡ self.now }
        ensures len { length result.now ≡ N }
    {
        &self.words
    }
}
