/// How far a session is with a checkpoint.
#[derive(Clone, Copy, Debug, PartialEq, Eq)]
pub enum Phase {
    /// None was taken yet.
    Start,
    /// Its buckets are being sent.
    Download,
    /// It is given up, and another is to be taken.
    Void,
    /// It is completed.
    Done,
}
