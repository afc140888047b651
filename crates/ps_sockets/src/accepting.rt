//! What an error of a listening socket means for the next connection.

use std::io;

/// What to do after a connection was not accepted.
#[derive(Clone, Copy, Debug, PartialEq, Eq)]
pub(crate) enum Next {
    /// Accept again at once: it was the peer's fault, or a signal's.
    AtOnce,
    /// Accept again after a while: descriptors or memory are wanting, or the network is.
    Later,
    /// No connection comes any more.
    Never,
}

/// How many milliseconds `Later` is.
pub(crate) const WHILE: u64 = 100;

// The errors are Linux's: EINTR and ECONNABORTED; ENOMEM, ENFILE, EMFILE, ENONET, EPROTO, ENETDOWN, ENETUNREACH, ENOBUFS, EHOSTDOWN and EHOSTUNREACH.
fn next_after_number(number: Option<i32>) -> Next {
    match number {
        Some(4 | 103) => Next::AtOnce,
        Some(12 | 23 | 24 | 64 | 71 | 100 | 101 | 105 | 112 | 113) => Next::Later,
        _ => Next::Never,
    }
}

/// What to do after this error of an accept.
pub(crate) fn next_after(error: &io::Error) -> Next {
    next_after_number(error.raw_os_error())
}

/// What to do after this error of a connection that was accepted already: its peer is gone, or descriptors or memory are wanting.
pub(crate) fn next_after_lost(error: &io::Error) -> Next {
    match next_after(error) {
        Next::Later => Next::Later,
        Next::AtOnce | Next::Never => Next::AtOnce,
    }
}
