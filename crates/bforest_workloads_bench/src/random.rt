//! Numbers without an order, equal on each side of a comparison.
ghost use Rattle.std.specs.Prelude.{◌<◌};

/// A generator of numbers.
#[derive(Drop)]
pub(crate) struct Random {
    state: u64,
}

impl Random {
    /// A generator that starts at a number.
    pub(crate) fn new(state: u64) -> Self {
        Random { state }
    }

    /// The next number.
    pub(crate) fn next(&mut self) -> u32 {
        let mut x = self.state;
        x ^= x << 13;
        x ^= x >> 7;
        x ^= x << 17;
        self.state = x;
        ((x >> 32) & 0xffff_ffff) as u32
    }

    /// The next number below a bound, or 0 where the bound is 0.
    pub(crate) fn below(&mut self, bound: u32) -> u32
        ensures { 0 < bound → result < bound }
    {
        let x = self.next();
        if bound == 0 { 0 } else { x % bound }
    }
}

/// The number at an index of a sequence that has each number once, without an order.
pub(crate) fn mixed(index: u32) -> u32 {
    let mut x = index;
    x ^= x >> 16;
    x = x.wrapping_mul(0x85eb_ca6b);
    x ^= x >> 13;
    x = x.wrapping_mul(0xc2b2_ae35);
    x ^ (x >> 16)
}

/// A checksum to which one more number is added.
pub(crate) fn added(sum: u64, x: u32) -> u64 {
    sum.wrapping_mul(31).wrapping_add(x as u64)
}
