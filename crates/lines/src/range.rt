// The numbers from `low` to `high`, both among them. The standard `RangeInclusive` is no plainer here: it also holds whether it was walked to its end, of which each rule would have to speak.
ghost use Rattle.std.specs.Prelude.{◌≡◌};
ghost use Rattle.std.specs.Int.{is_in_range};

#[derive(Clone, Copy, PartialEq, Eq, Debug)]
pub struct Range {
    pub low: u16,
    pub high: u16,
}

impl Range {
    pub fn contains(self, n: u16) -> bool
        ensures { result ≡ is_in_range self.low self.high n }
    {
        self.low <= n && n <= self.high
    }
}
