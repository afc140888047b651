//! The value of an expression, on a row or for a query's asker: docs/FORMATS.md, "Queries".
#![tactic(auto)]

mod arrays;
mod askers;
mod columns;
mod evaluations;
mod members;
mod objects;
mod texts;
mod truths;
mod vectors;

pub use arrays::elements;
pub use askers::nobody;
pub use columns::column_value;
pub use evaluations::{eval_request, eval_row, eval_without_bucket};
pub use objects::{content, object_id};
pub use ps_queries::Asker;
pub use vectors::{holds, vector_on};
