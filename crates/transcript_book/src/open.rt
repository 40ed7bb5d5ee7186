/// An arrival that runs or waits at its node, with what is asked of it.
#[derive(Clone, Copy, Debug, PartialEq, Eq)]
pub struct Open {
    pub number: u64,
    pub node: u32,
    /// How many changes stood before it.
    pub points: u64,
    /// The event in which it came.
    pub under: u64,
}
