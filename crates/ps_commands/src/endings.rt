/// How a command ended.
#[derive(Clone, Copy)]
pub(crate) enum Ending {
    /// All went well.
    Done,
    /// A recorded stream breaks what is owed, and this was printed.
    Altered,
}
