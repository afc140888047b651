/// What the lines of a file feed a store with.
#[derive(Clone, Copy, Debug, PartialEq, Eq)]
pub enum Feeding {
    /// Change lines, each of which is written and committed before the next is read.
    Changes,
    /// A first copy of tables that runs beside change lines, committed at its end.
    FirstCopy,
}
