//! Which of the three top calls a command line is for.

use ps_data::Text;

/// What a command line asks of the program.
#[derive(Clone, Copy, Debug, PartialEq, Eq)]
pub(crate) enum Job {
    /// A command over files alone, or words that are no command.
    Plain,
    /// The service.
    Serve,
    /// A client of a service.
    Sync,
}

/// `Serve` or `Sync` by the first word, else `Plain`.
pub(crate) fn job_of(words: &[Text]) -> Job {
    match words {
        [first, ..] => match first.as_str() {
            "serve" => Job::Serve,
            "sync" => Job::Sync,
            _ => Job::Plain,
        },
        [] => Job::Plain,
    }
}
