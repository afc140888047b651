//! Heads and bodies of requests, heads of answers, and values of queries (RFC 9112, HTTP/1.1).
#![tactic(auto)]

mod answers;
mod bodies;
mod fields;
mod heads;
mod parts;
mod queries;
mod takings;

pub use answers::write_head;
pub use bodies::{BODY_LIMIT, BodyFault, read_body};
pub use fields::stated_length;
pub use heads::{FIELD_LIMIT, HEAD_LIMIT, Head, HeadFault};
pub use queries::query_value;
pub use takings::read_head;
