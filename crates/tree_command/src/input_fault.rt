/// What is wrong with an input of `tree`.
#[derive(Clone, Copy, Debug, PartialEq, Eq)]
pub enum InputFault {
    /// The first line is no `cluster` line of a cluster within the limits.
    Head,
    /// There are fewer bytes of images than the cluster has.
    Short,
    /// There are more bytes of images than the cluster has.
    Trailing,
    /// The images stand for no tree.
    Tree,
}
