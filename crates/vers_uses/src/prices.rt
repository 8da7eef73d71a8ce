//! Prices by the day, and the cheapest of several days.
ghost use Rattle.std.specs.Prelude.{◌≡◌, ◌-◌, ◌<◌, ◌≤◌, ◌↔◌, length, IfOk, IfSome, IsSome};
ghost use Rattle.vers_vecs.specs.Minima.{least_position};

use std::alloc::{AllocError, Allocator};
use std::marker::Model;
use vers_vecs::FastRmq;
use vers_vecs::rmq::fast_rmq::MAX_LEN;

/// A price for each day.
#[derive(Drop)]
pub struct Prices<A: Allocator + Copy> {
    by_day: FastRmq<A>,
}

impl<A: Allocator + Copy> Model for Prices<A> {
    ghost use Rattle.std.specs.Prelude.{List, ℕ};

    ghost Value = { List ℕ };

    ghost view = { λ prices. prices.by_day };
}

impl<A: Allocator + Copy> Prices<A> {
    /// Returns the prices of days 0, 1, and so on. Precondition: there are at most `MAX_LEN`. Errors:
    /// `AllocError` if the allocator refuses a request.
    pub fn new(by_day: Vec<u64, A>) -> Result<Self, AllocError>
        requires { length by_day.items ≤ MAX_LEN }
        ensures { IfOk result (λ prices. prices ≡ by_day.items) }
    {
        Ok(Prices {
            by_day: FastRmq::from_vec(by_day)?,
        })
    }

    /// Returns the first of the cheapest days from day `from` up to day `to`. `None` if there are no such days,
    /// or they extend past the last.
    pub fn cheapest(&self, from: usize, to: usize) -> Option<usize>
        ensures some { IsSome result ↔ ((from < to) × (to ≤ length self.now)) }
        ensures least { IfSome result (λ day. day ≡ least_position self.now from (to - 1)) }
    {
        if from >= to || to > self.by_day.len() {
            return None;
        }
        Some(self.by_day.range_min(from, to - 1))
    }
}
