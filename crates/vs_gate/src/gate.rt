/// What a driver passes between two of its events. A test holds drivers up there, to bring about an order of events
/// in which they meet; the running program lets everyone through.
///
/// A gate is told where the driver stands and answers nothing, so that it can delay a driver and can't change what
/// it does.
pub trait Gate {
    /// Comes back when the driver may go on.
    ///
    /// `who` is the client's number, 100 plus the operator's, 200 plus the set's of a service, or 300 plus the set's of
    /// a mover. `call` is the number of the call or command, and 0 for services and movers. `stage` is 1 to 5 after
    /// the call was posted, begun, done, ended and taken, and 0 otherwise.
    fn pass(&self, who: u32, call: u32, stage: u8);
}
