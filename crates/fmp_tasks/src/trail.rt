//! How an order came about.
use std::snapshot::Snapshot;

/// The changes of an order, the last one first. It has bytes only where it is made.
#[derive(Drop)]
pub enum OrderTrail {
    Start,
    /// A task went to the end of the order before.
    Last(u8, Snapshot<OrderTrail>),
    /// A task left the order before.
    Left(u8, Snapshot<OrderTrail>),
    /// The order is another one.
    Same(Snapshot<Snapshot<OrderTrail>>),
}
