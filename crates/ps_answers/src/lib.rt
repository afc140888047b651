//! The requests of a client of the service, and the answers to them (RFC 9112, HTTP/1.1): docs/FORMATS.md, "Requests of a client".
#![tactic(auto)]

mod buffers;
mod heads;
mod numbers;
mod readers;
mod reads;
mod requests;
mod tokens;

pub use buffers::Reader;
pub use heads::{AnswerFault, AnswerHead};
pub use numbers::{answered_number, answered_position};
pub use readers::{LINE_LIMIT, LineFault, Part};
pub use reads::ReadFault;
pub use requests::{number_request, stream_request, upload_request};
pub use tokens::token_in;
