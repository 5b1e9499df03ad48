//! Ranges of numbers: where a count is not known, but the least and the greatest it may be.

ghost use Rattle.std.specs.Prelude.{◌≡◌, ◌+◌, ◌<◌, ◌^◌, ℕ, true};
ghost use Rattle.ends_picks.specs.Ranges.{IsIn};
ghost use Rattle.laws_calls.specs.Fitting.{Agrees};

/// The numbers from the least to the greatest. There are none if the least is greater.
#[derive(Clone, Copy)]
pub struct Range {
    pub least: usize,
    pub greatest: usize,
}

impl Range {
    /// The numbers of both ranges.
    pub fn meet(self, other: Range) -> Range
        ensures { (n : ℕ) → IsIn self n → IsIn other n → IsIn result n }
    {
        Range {
            least: self.least.max(other.least),
            greatest: self.greatest.min(other.greatest),
        }
    }

    /// The sums of a number of this range and one of the other.
    pub fn plus(self, other: Range) -> Range
        ensures { (n m : ℕ) → n + m < 2 ^ 64 → IsIn self n → IsIn other m → IsIn result (n + m) }
    {
        Range {
            least: self.least.saturating_add(other.least),
            greatest: self.greatest.saturating_add(other.greatest),
        }
    }

    /// The numbers that are also the sum of a number of one range and one of the other.
    pub fn meet_sum(self, one: Range, other: Range) -> Range
        ensures { (n m : ℕ) → IsIn self (n + m) → IsIn one n → IsIn other m → IsIn result (n + m) }
    {
        Range {
            least: self.least.max(one.least.saturating_add(other.least)),
            greatest: self
                .greatest
                .min(one.greatest.saturating_add(other.greatest)),
        }
    }

    /// What is left of a number of this range without one of the other.
    pub fn minus(self, other: Range) -> Range
        ensures { (n m : ℕ) → IsIn self (n + m) → IsIn other m → IsIn result n }
    {
        Range {
            least: self.least.saturating_sub(other.greatest),
            greatest: self.greatest.saturating_sub(other.least),
        }
    }

    /// The number that was the answer to a question, if it was asked.
    pub fn answered(self, answer: Option<u32>) -> Range
        ensures { (n : ℕ) → Agrees answer n → IsIn self n → IsIn result n }
    {
        match answer {
            None => self,
            Some(count) => self.meet(Range {
                least: count as usize,
                greatest: count as usize,
            }),
        }
    }

    /// Is there a number? No if the answer is false.
    pub fn has_numbers(self) -> bool
        ensures { (n : ℕ) → IsIn self n → result ≡ true }
    {
        self.least <= self.greatest
    }

    /// Is the number in the range? No if the answer is false.
    pub fn has(self, n: usize) -> bool
        ensures { IsIn self n → result ≡ true }
    {
        self.least <= n && n <= self.greatest
    }
}
