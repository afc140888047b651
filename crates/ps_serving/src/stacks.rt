//! How large a stack the threads of a service get. Evaluating a condition recurses as deep as it nests, and nothing bounds that but the length of a rules file.

use ps_definitions::{Definition, Rules};
use ps_queries::{Expr, Output};

// The bytes of a stack beside those of conditions.
const BASE: usize = 2097152;

// The bytes of one level of a condition. By docs/PERFORMANCE.md, "Conditions", a level takes 1,600 at most.
const LEVEL: usize = 4096;

// How deep an expression nests.
#[cycle(nesting)]
fn depth_of(expr: &Expr) -> usize {
    let within = match expr {
        Expr::Null | Expr::Number(_) | Expr::Text(_) => 0,
        Expr::Column { .. } | Expr::Bucket { .. } => 0,
        Expr::UserId | Expr::Jwt | Expr::Parameters => 0,
        Expr::Call { arguments, .. } => deepest(arguments.as_slice()),
        Expr::CastText { of } => depth_of(of.get()),
        Expr::Not { of } => depth_of(of.get()),
        Expr::IsNull { of, .. } => depth_of(of.get()),
        Expr::Two { left, right, .. } => depth_of(left.get()).max(depth_of(right.get())),
    };
    within.saturating_add(1)
}

// How deep the deepest of several expressions nests.
#[cycle(nesting)]
fn deepest(all: &[Expr]) -> usize {
    let mut depth = 0usize;
    'all: for one in all {
        depth = depth.max(depth_of(one));
    }
    depth
}

// How deep a query nests.
fn depth_of_query(outputs: &[Output], condition: &Option<Expr>) -> usize {
    let mut depth = match condition {
        Some(condition) => depth_of(condition),
        None => 0,
    };
    'outputs: for output in outputs {
        depth = depth.max(depth_of(&output.expr));
    }
    depth
}

// How deep the queries of a definition nest.
fn depth_of_definition(definition: &Definition) -> usize {
    let mut depth = 0usize;
    'parameters: for query in definition.parameters.as_slice() {
        depth = depth.max(depth_of_query(query.outputs.as_slice(), &query.condition));
    }
    'queries: for planned in definition.queries.as_slice() {
        let query = &planned.query;
        depth = depth.max(depth_of_query(query.outputs.as_slice(), &query.condition));
    }
    depth
}

// How deep the queries of rules nest.
fn depth_of_rules(rules: &Rules) -> usize {
    let mut depth = 0usize;
    'definitions: for definition in rules.definitions() {
        depth = depth.max(depth_of_definition(definition));
    }
    depth
}

/// The bytes of a stack that evaluates the queries of rules, and of the next ones where there are any, with room to spare by what was measured.
pub(crate) fn stack_for(rules: &Rules, next: &Option<Rules>) -> usize {
    let mut depth = depth_of_rules(rules);
    if let Some(next) = next {
        depth = depth.max(depth_of_rules(next));
    }
    depth.saturating_mul(LEVEL).saturating_add(BASE)
}
