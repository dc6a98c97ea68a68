//! How a run ends.

/// How a run ends. Its number, in this order from 0, is the exit status of the program.
#[derive(Clone, Copy, Debug, PartialEq, Eq, Hash)]
pub enum Status {
    /// All rows were written.
    Done,
    /// The row limit was met, and further rows remain.
    Cut,
    /// No row satisfies the profile.
    Empty,
    /// The words give no order.
    Usage,
    /// The disk failed to read, or the profile file isn't there.
    ReadFault,
    /// The disk failed to write, the output is there already, or the console failed.
    WriteFault,
    /// The profile file breaks a rule.
    ProfileRefused,
    /// The token is refused.
    TokenRefused,
    /// An allocation failed.
    WantOfMemory,
}
