//! Numbers without an order.

/// A generator of numbers: a linear congruence, of which the upper half is handed out.
#[derive(Drop)]
pub(crate) struct Random {
    state: u64,
}

impl Random {
    /// A generator that starts at a number.
    pub(crate) fn new(state: u64) -> Self {
        Random { state }
    }

    /// The next number below a bound, or 0 where the bound is 0.
    pub(crate) fn below(&mut self, bound: u32) -> u32 {
        self.state = self
            .state
            .wrapping_mul(6364136223846793005)
            .wrapping_add(1442695040888963407);
        let x = ((self.state >> 32) & 0xffff_ffff) as u32;
        if bound == 0 { 0 } else { x % bound }
    }
}
