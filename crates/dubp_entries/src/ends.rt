/// Where the input ended.
#[derive(Clone, Copy, Debug, PartialEq, Eq)]
pub enum InputEnd {
    /// On the boundary of an entry: no frame was begun.
    OnBoundary,
    /// Inside a frame.
    InsideFrame,
}

/// How a session ends.
#[derive(Clone, Copy, PartialEq, Eq)]
pub enum Ending {
    /// The input was read to its end.
    Ended(InputEnd),
    ReadFault,
    WriteFault,
    /// As many bytes were taken as a run takes at most, and more would be needed.
    TooMuch,
}
