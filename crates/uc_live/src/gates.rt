//! Where workers stand, and who is told.

/// A point in a worker's way.
#[derive(Clone, Copy, Debug, PartialEq, Eq)]
pub enum Point {
    /// Before the first step.
    Outside,
    Entered,
    Arrived,
    /// It goes on after the decision, whichever that is.
    Decided,
    Begun,
    Wrote,
    Reported,
    /// It has come to its last phase.
    Left,
}

/// Is told by each worker where it stands, in the worker's own thread. A call may hold the worker for a while.
pub trait Gate {
    /// The worker of this thread is at this point.
    fn at(&self, thread: u16, point: Point);

    /// The worker of this thread runs ordinary code: an Online thread before its first step, and after its leave.
    fn ordinary(&self, thread: u16);
}

/// A gate that lets all go on.
#[derive(Clone, Copy, Debug)]
pub struct OpenGate;

impl Gate for OpenGate {
    fn at(&self, _thread: u16, _point: Point) {}

    fn ordinary(&self, _thread: u16) {}
}
