/// The draws of one turn, and the number after them.
#[derive(Clone, Copy, Debug)]
pub struct TurnDraws {
    pub node: u32,
    pub call: u32,
    pub name: u32,
    pub drain: u32,
    pub fault: u32,
    pub last: u64,
}
