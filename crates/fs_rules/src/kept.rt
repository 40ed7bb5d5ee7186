/// What a free number keeps of the file that had it last.
#[derive(Clone, Copy, Debug, PartialEq, Eq)]
pub struct Kept {
    pub generation: u32,
    pub change: u64,
}
