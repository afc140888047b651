//! Queries as data: expressions, what they speak of and what they mean, and the two kinds of queries that have them.
#![tactic(auto)]

mod askers;
mod expressions;
mod queries;
mod subjects;

pub use askers::Asker;
pub use expressions::{Expr, Function, Operator};
pub use queries::{DataQuery, Output, ParameterQuery};
pub use subjects::{Subject, same_for_every_asker, same_for_every_bucket, same_on_every_row};
