//! The orders that lines name.
ghost use Rattle.bforest_run.specs.Orders.{IsTotalOrder-order_of, order_of};

use bforest::Comparator;
use std::cmp::Ordering;

/// An order of numbers.
#[derive(Clone, Copy, Debug, PartialEq, Eq)]
pub(crate) enum Order {
    /// By size.
    Up,
    /// By size, the largest first.
    Down,
    /// By size without the last digit, so that 12 and 15 compare equal.
    Tens,
}

/// The orders, by the index that calls use for them.
pub(crate) const ORDERS: [Order; 3] = [Order::Up, Order::Down, Order::Tens];

impl Comparator<u32> for Order {
    ghost order = { order_of };

    ghost total = { IsTotalOrder-order_of };

    fn cmp(&self, a: u32, b: u32) -> Ordering {
        match self {
            Order::Up => a.cmp(&b),
            Order::Down => b.cmp(&a),
            Order::Tens => (a / 10).cmp(&(b / 10)),
        }
    }
}
