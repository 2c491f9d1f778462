//! How many instructions and operands a tree takes.

ghost use Rattle.std.specs.Prelude.{◌≡◌, ◌+◌, ◌≤◌, min, max, map};
ghost use Rattle.fmp_tasklang.specs.Views.{expression_view, link_view, statement_view, block_view};
ghost use Rattle.fmp_scopes.specs.Chains.{operator_size, operator_rise, links_size, links_depth};
ghost use Rattle.fmp_scopes.specs.Depths.{expression_depth, arguments_depth, statement_depth, block_depth};
ghost use Rattle.fmp_scopes.specs.Sizes.{expression_size, arguments_size, statement_size, block_size};

use fmp_tasklang::{Expression, Link, Operator, Statement};

/// The number of instructions of a tree, cut at 65536, and the number of operands that it needs, cut at 2^30.
#[derive(Clone, Copy)]
pub struct Extent {
    /// How many instructions, at most 65536.
    pub size: usize,
    /// How many operands, at most 2^30.
    pub depth: usize,
}

const MANY: usize = 65536;

const DEEP: usize = 1_073_741_824;

fn cut(n: usize, most: usize) -> usize
    ensures { result ≡ min n most }
{
    if n < most { n } else { most }
}

fn greater(a: usize, b: usize) -> usize
    ensures { result ≡ max a b }
{
    if a < b { b } else { a }
}

fn cut_extent(size: usize, depth: usize) -> Extent
    ensures size { result.size ≡ min size 65536 }
    ensures depth { result.depth ≡ min depth 1073741824 }
{
    Extent {
        size: cut(size, MANY),
        depth: cut(depth, DEEP),
    }
}

/// The instructions of an operator itself.
fn size_of_operator(operator: Operator) -> usize
    ensures { result ≡ operator_size operator }
{
    match operator {
        Operator::Binary(_) => 1,
        Operator::Both => 4,
        Operator::Either => 4,
    }
}

/// How many operands stand below those of the second operand.
fn rise_of_operator(operator: Operator) -> usize
    ensures { result ≡ operator_rise operator }
{
    match operator {
        Operator::Binary(_) => 1,
        Operator::Both => 0,
        Operator::Either => 0,
    }
}

/// The extent of an expression.
#[cycle(expression_extents)]
pub fn expression_extent(e: &Expression) -> Extent
    ensures size { result.size ≡ min (expression_size (expression_view e.now)) 65536 }
    ensures depth { result.depth ≡ min (expression_depth (expression_view e.now)) 1073741824 }
{
    match e {
        Expression::Number(_) => cut_extent(1, 1),
        Expression::Name(_) => cut_extent(1, 1),
        Expression::Element { index, .. } => {
            let inner = expression_extent(index);
            cut_extent(inner.size + 1, inner.depth)
        }
        Expression::Unary { operand, .. } => {
            let inner = expression_extent(operand);
            cut_extent(inner.size + 1, inner.depth)
        }
        Expression::Chain { first, rest } => {
            let one = expression_extent(first);
            let others = links_extent(rest);
            cut_extent(one.size + others.size, greater(one.depth, others.depth))
        }
    }
}

#[cycle(expression_extents)]
fn links_extent(links: &[Link]) -> Extent
    ensures size { result.size ≡ min (links_size (map link_view links.now)) 65536 }
    ensures depth { result.depth ≡ min (links_depth (map link_view links.now)) 1073741824 }
{
    let mut all = Extent { size: 0, depth: 0 };
    for link in links {
        let one = expression_extent(&link.operand);
        let size = one.size + size_of_operator(link.operator);
        let depth = one.depth + rise_of_operator(link.operator);
        all = cut_extent(all.size + size, greater(all.depth, depth));
    }
    all
}

/// The extent of the arguments of a call.
fn arguments_extent(arguments: &[Expression]) -> Extent
    ensures size { result.size ≡ min (arguments_size (map expression_view arguments.now)) 65536 }
    ensures depth { result.depth ≡ min (arguments_depth (map expression_view arguments.now)) 1073741824 }
{
    let mut all = Extent { size: 0, depth: 0 };
    for i in 0..arguments.len() {
        let one = expression_extent(&arguments[i]);
        all = cut_extent(
            all.size + one.size,
            greater(all.depth, one.depth + cut(i, DEEP)),
        );
    }
    all
}

#[cycle(statement_extents)]
fn statement_extent(s: &Statement) -> Extent
    ensures size { result.size ≡ min (statement_size (statement_view s.now)) 65536 }
    ensures depth { result.depth ≡ min (statement_depth (statement_view s.now)) 1073741824 }
{
    match s {
        Statement::Assign { value, .. } => {
            let one = expression_extent(value);
            cut_extent(one.size + 1, one.depth)
        }
        Statement::AssignElement { index, value, .. } => {
            let place = expression_extent(index);
            let one = expression_extent(value);
            cut_extent(
                place.size + one.size + 1,
                greater(place.depth, one.depth + 1),
            )
        }
        Statement::Call(call) => {
            let all = arguments_extent(call.arguments.as_slice());
            cut_extent(all.size + 1, all.depth)
        }
        Statement::If { condition, then } => {
            let test = expression_extent(condition);
            let inner = block_extent(then);
            cut_extent(test.size + 1 + inner.size, greater(test.depth, inner.depth))
        }
        Statement::IfElse {
            condition,
            then,
            otherwise,
        } => {
            let test = expression_extent(condition);
            let first = block_extent(then);
            let second = block_extent(otherwise);
            let size = test.size + 1 + first.size + 1 + second.size;
            cut_extent(
                size,
                greater(test.depth, greater(first.depth, second.depth)),
            )
        }
        Statement::While { condition, body } => {
            let test = expression_extent(condition);
            let inner = block_extent(body);
            cut_extent(
                test.size + 1 + inner.size + 1,
                greater(test.depth, inner.depth),
            )
        }
        Statement::Break => cut_extent(1, 0),
        Statement::Continue => cut_extent(1, 0),
        Statement::Return => cut_extent(1, 0),
    }
}

/// The extent of the statements of a block.
#[cycle(statement_extents)]
pub fn block_extent(statements: &[Statement]) -> Extent
    ensures size { result.size ≡ min (block_size (block_view statements.now)) 65536 }
    ensures depth { result.depth ≡ min (block_depth (block_view statements.now)) 1073741824 }
{
    let mut all = Extent { size: 0, depth: 0 };
    for s in statements {
        let one = statement_extent(s);
        all = cut_extent(all.size + one.size, greater(all.depth, one.depth));
    }
    all
}
