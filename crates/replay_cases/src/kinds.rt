/// What comes in a script besides feeding, writing, committing, compacting and streams.
#[derive(Clone, Copy)]
pub enum Kind {
    /// Nothing.
    Streams,
    /// Local writes, uploads and numbers.
    Uploads,
    /// These, and new rules.
    Deploys,
}

impl Kind {
    /// Whether there are local writes, uploads and numbers.
    pub fn has_uploads(self) -> bool {
        match self {
            Kind::Streams => false,
            Kind::Uploads | Kind::Deploys => true,
        }
    }

    /// Whether there are new rules.
    pub fn has_deploys(self) -> bool {
        match self {
            Kind::Streams | Kind::Uploads => false,
            Kind::Deploys => true,
        }
    }
}
