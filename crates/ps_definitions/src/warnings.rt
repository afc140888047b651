/// What a warning is about.
#[derive(Clone, Copy, Debug, PartialEq, Eq)]
pub enum WarningKind {
    /// A parameter query has `request.parameters()`, which the client chooses freely.
    ClientParameters,
    /// A definition has no data query.
    NoData,
}

/// What rules may have and should not. Lines and columns count from 1, columns in bytes.
#[derive(Clone, Copy, Debug, PartialEq, Eq)]
pub struct Warning {
    /// What it is about.
    pub kind: WarningKind,
    /// The line of the query, or of the definition's name.
    pub line: u32,
    /// The column there.
    pub column: u32,
}
