//! Choices, by which machines are made.
ghost use Rattle.std.specs.Prelude.{◌<◌};

use std::alloc::{AllocError, Global};

/// A source of choices.
pub(crate) trait Choices {
    /// One of the numbers below `n`.
    fn pick(&mut self, n: usize) -> usize
        requires { 0 < n }
        ensures { result < n };
}

/// The digits of a number, the lowest first: all machines of a shape are made by counting.
#[derive(Drop)]
pub(crate) struct Digits {
    pub(crate) rest: usize,
}

impl Choices for Digits {
    fn pick(&mut self, n: usize) -> usize {
        let digit = self.rest % n;
        self.rest /= n;
        digit
    }
}

/// Choices that look random, and are the same in every run: the high halves of a linear congruence.
#[derive(Drop)]
pub(crate) struct Random {
    pub(crate) state: u64,
}

impl Choices for Random {
    fn pick(&mut self, n: usize) -> usize {
        self.state = self
            .state
            .wrapping_mul(6_364_136_223_846_793_005)
            .wrapping_add(1_442_695_040_888_963_407);
        (self.state >> 32) as usize % n
    }
}

impl Random {
    /// All pairs of numbers below `n`, in an order of choice.
    pub(crate) fn pairs(
        &mut self,
        heap: Global,
        n: usize,
    ) -> Result<Vec<(usize, usize)>, AllocError> {
        let mut pairs = Vec::new(heap);
        for s in 0..n {
            for t in 0..n {
                pairs.push((s, t))?;
            }
        }
        for last in (1..pairs.len()).rev() {
            pairs.swap(last, self.pick(last + 1));
        }
        Ok(pairs)
    }
}
