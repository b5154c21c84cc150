//! Who hears how far a thread has come with a push: a server that measures how long the lock was held, or a test
//! that holds the thread.

/// A place on the way of a push.
#[derive(Clone, Copy, Debug, PartialEq, Eq)]
pub enum Point {
    /// A push was opened.
    Opened,
    /// A part was put.
    Put,
    /// A mark was put.
    Marked,
    /// The lock is held, and an item is taken next.
    Locked,
    /// A push was answered, and the lock given back.
    Answered,
}

/// Hears of each place that a thread reaches. At [`Point::Locked`] the lock is held meanwhile.
pub trait Probe {
    fn at(&mut self, point: Point);
}

/// Hears nothing, and holds nobody.
#[derive(Drop)]
pub struct NoProbe;

impl Probe for NoProbe {
    fn at(&mut self, _point: Point) {}
}
