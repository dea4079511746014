/// Memory ran out. The call that answers it left everything as it was, unless its own page says otherwise.
#[derive(Clone, Copy, Debug, PartialEq, Eq)]
pub struct NoMemory;
