//! The buffer of an answer.

ghost use Rattle.std.specs.Prelude.{◌≤◌, vec_len};

/// What was read of an answer: the part that was taken last, and what is left behind it.
#[derive(Debug, Drop)]
pub struct Reader {
    pub(crate) bytes: Vec<u8>,
    // The part that was taken last is from `start` to `end`; what is left begins at `next`.
    pub(crate) start: usize,
    pub(crate) end: usize,
    pub(crate) next: usize,
    pub(crate) ghost ordered: { start ≤ end },
    pub(crate) ghost part_before: { end ≤ next },
    pub(crate) ghost in_range: { next ≤ vec_len bytes },
}
