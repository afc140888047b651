//! What is said of connections as they end.

use ps_serve::End;

/// Who hears how each connection ended, as what writes to standard error. What comes of that is not told.
pub trait Hears {
    /// Hears that a connection ended so. The status is that of its answer, 0 where no head was written.
    fn hear(&self, status: u16, end: End);
}

// What is said of an end, but for those whose peer left.
fn text_of(end: End) -> Option<&'static str> {
    match end {
        End::Answered => Some("answered"),
        End::Refused => Some("refused"),
        End::Drained => Some("drained"),
        End::Expired { .. } => Some("expired"),
        End::TooMany { .. } => Some("too-many-buckets"),
        End::Memory => Some("out-of-memory"),
        End::PeerGone | End::CutRequest => None,
    }
}

/// The plain runtime writes a line to standard error for each connection but those whose peer left: docs/OPERATING.md, "What it prints". A line that cannot be made or
/// written is left out.
impl Hears for HostRuntime {
    fn hear(&self, status: u16, end: End) {
        let Some(text) = text_of(end) else { return };
        // One write, so that lines of several threads stay apart.
        if let Ok(line) = format!(in self.alloc(); "powersync: connection {status} {text}\n") {
            let _said = eprint!(self; "{}", line.as_str());
        }
    }
}
