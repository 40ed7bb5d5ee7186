use mini_tx::Geometry4;

/// Which memory node of which cluster.
#[derive(Clone, Copy, Debug, PartialEq, Eq)]
pub struct Setup {
    pub geometry: Geometry4,
    /// The number of the memory node.
    pub index: u32,
}
