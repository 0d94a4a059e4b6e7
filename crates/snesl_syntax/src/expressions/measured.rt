// Expressions with their depths.
//
// A depth over the limit is kept as one more than the limit, so that no depth is computed twice.

ghost use Rattle.std.specs.Prelude.{◌≡◌, ◌+◌, suc, min, IfOk};
ghost use Rattle.snesl_grammar.specs.tree.Tree.{depth, depth_of_all, depth_of_binders};
ghost use Rattle.snesl_grammar.specs.tree.View.{tree_of, trees_of, binders_of};
ghost use Rattle.snesl_grammar.specs.Limits.{greatest_depth};

use crate::expressions::limits::GREATEST_DEPTH;
use snesl_grammar::tree::{Binder, Builtin, Expr, Operator, Prefix, Span};
use std::alloc::{AllocError, Global};

/// An expression and its depth, at most one over the limit. The box keeps the forms small that hold one.
#[derive(Drop)]
pub struct Measured {
    pub expr: Box<Expr>,
    pub deep: usize,
    ghost exact: { deep ≡ min (depth (tree_of expr.value)) (suc greatest_depth) },
}

/// Arguments, or items, and the depth of the deepest, at most one over the limit.
#[derive(Drop)]
pub struct Arguments {
    pub exprs: Vec<Expr>,
    pub deep: usize,
    ghost exact: { deep ≡ min (depth_of_all (trees_of exprs.items)) (suc greatest_depth) },
}

/// The binders of a comprehension and the depth of the deepest source, at most one over the limit.
#[derive(Drop)]
pub struct Bound {
    pub binders: Vec<Binder>,
    pub deep: usize,
    ghost exact: { deep ≡ min (depth_of_binders (binders_of binders.items)) (suc greatest_depth) },
}

impl Measured {
    ghost use Rattle.snesl_grammar.specs.tree.Tree.{integer, truth, name, binary, prefix, call, apply, group, pair, binding, choice, literal, filter, each, always, only_where};
    ghost use Rattle.snesl_syntax.specs.expressions.Parts.{tree_in, trees_in, bound_in, Builds};

    pub fn integer(alloc: Global, at: usize, value: i128) -> Result<Measured, AllocError>
        ensures { Builds result (integer at value) }
    {
        let expr = Box::new(alloc, Expr::Integer { at, value })?;
        Ok(Measured { expr, deep: 1 })
    }

    pub fn truth(alloc: Global, at: usize, value: bool) -> Result<Measured, AllocError>
        ensures { Builds result (truth at value) }
    {
        let expr = Box::new(alloc, Expr::Truth { at, value })?;
        Ok(Measured { expr, deep: 1 })
    }

    pub fn name(alloc: Global, place: Span) -> Result<Measured, AllocError>
        ensures { Builds result (name place) }
    {
        let expr = Box::new(alloc, Expr::Name(place))?;
        Ok(Measured { expr, deep: 1 })
    }

    pub fn binary(
        alloc: Global,
        at: usize,
        operator: Operator,
        left: Measured,
        right: Measured,
    ) -> Result<Measured, AllocError>
        ensures { Builds result (binary at operator (tree_in left) (tree_in right)) }
    {
        let deep = one_more(left.deep.max(right.deep));
        let expr = Expr::Binary {
            at,
            operator,
            left: left.expr,
            right: right.expr,
        };
        let expr = Box::new(alloc, expr)?;
        Ok(Measured { expr, deep })
    }

    pub fn prefix(
        alloc: Global,
        at: usize,
        operator: Prefix,
        operand: Measured,
    ) -> Result<Measured, AllocError>
        ensures { Builds result (prefix at operator (tree_in operand)) }
    {
        let deep = one_more(operand.deep);
        let expr = Expr::Prefix {
            at,
            operator,
            operand: operand.expr,
        };
        let expr = Box::new(alloc, expr)?;
        Ok(Measured { expr, deep })
    }

    pub fn call(
        alloc: Global,
        at: usize,
        function: Builtin,
        arguments: Arguments,
    ) -> Result<Measured, AllocError>
        ensures { Builds result (call at function (trees_in arguments)) }
    {
        let Arguments { exprs, deep } = arguments;
        let deep = one_more(deep);
        let expr = Expr::Call {
            at,
            function,
            arguments: exprs,
        };
        let expr = Box::new(alloc, expr)?;
        Ok(Measured { expr, deep })
    }

    pub fn apply(
        alloc: Global,
        function: Span,
        arguments: Arguments,
    ) -> Result<Measured, AllocError>
        ensures { Builds result (apply function (trees_in arguments)) }
    {
        let Arguments { exprs, deep } = arguments;
        let deep = one_more(deep);
        let expr = Expr::Apply {
            function,
            arguments: exprs,
        };
        let expr = Box::new(alloc, expr)?;
        Ok(Measured { expr, deep })
    }

    pub fn group(alloc: Global, at: usize, inner: Measured) -> Result<Measured, AllocError>
        ensures { Builds result (group at (tree_in inner)) }
    {
        let deep = one_more(inner.deep);
        let expr = Expr::Group {
            at,
            inner: inner.expr,
        };
        let expr = Box::new(alloc, expr)?;
        Ok(Measured { expr, deep })
    }

    pub fn pair(
        alloc: Global,
        at: usize,
        first: Measured,
        second: Measured,
    ) -> Result<Measured, AllocError>
        ensures { Builds result (pair at (tree_in first) (tree_in second)) }
    {
        let deep = one_more(first.deep.max(second.deep));
        let expr = Expr::Pair {
            at,
            first: first.expr,
            second: second.expr,
        };
        let expr = Box::new(alloc, expr)?;
        Ok(Measured { expr, deep })
    }

    pub fn binding(
        alloc: Global,
        at: usize,
        place: Span,
        value: Measured,
        body: Measured,
    ) -> Result<Measured, AllocError>
        ensures { Builds result (binding at place (tree_in value) (tree_in body)) }
    {
        let deep = one_more(value.deep.max(body.deep));
        let expr = Expr::Let {
            at,
            name: place,
            value: value.expr,
            body: body.expr,
        };
        let expr = Box::new(alloc, expr)?;
        Ok(Measured { expr, deep })
    }

    pub fn choice(
        alloc: Global,
        at: usize,
        condition: Measured,
        positive: Measured,
        negative: Measured,
    ) -> Result<Measured, AllocError>
        ensures { Builds result
            (choice at (tree_in condition) (tree_in positive) (tree_in negative)) }
    {
        let deep = one_more(condition.deep.max(positive.deep.max(negative.deep)));
        let expr = Expr::If {
            at,
            condition: condition.expr,
            positive: positive.expr,
            negative: negative.expr,
        };
        let expr = Box::new(alloc, expr)?;
        Ok(Measured { expr, deep })
    }

    pub fn literal(alloc: Global, at: usize, items: Arguments) -> Result<Measured, AllocError>
        ensures { Builds result (literal at (trees_in items)) }
    {
        let Arguments { exprs, deep } = items;
        let deep = one_more(deep);
        let expr = Box::new(alloc, Expr::Literal { at, items: exprs })?;
        Ok(Measured { expr, deep })
    }

    pub fn filter(
        alloc: Global,
        at: usize,
        item: Measured,
        condition: Measured,
    ) -> Result<Measured, AllocError>
        ensures { Builds result (filter at (tree_in item) (tree_in condition)) }
    {
        let deep = one_more(item.deep.max(condition.deep));
        let expr = Expr::Filter {
            at,
            item: item.expr,
            condition: condition.expr,
        };
        let expr = Box::new(alloc, expr)?;
        Ok(Measured { expr, deep })
    }

    pub fn each(
        alloc: Global,
        at: usize,
        body: Measured,
        bound: Bound,
    ) -> Result<Measured, AllocError>
        ensures { Builds result (each at (tree_in body) (bound_in bound) always) }
    {
        let Bound { binders, deep } = bound;
        let deep = one_more(body.deep.max(deep));
        let expr = Expr::Each {
            at,
            body: body.expr,
            binders,
            condition: None,
        };
        let expr = Box::new(alloc, expr)?;
        Ok(Measured { expr, deep })
    }

    pub fn each_where(
        alloc: Global,
        at: usize,
        body: Measured,
        bound: Bound,
        condition: Measured,
    ) -> Result<Measured, AllocError>
        ensures { Builds result
            (each at (tree_in body) (bound_in bound) (only_where (tree_in condition))) }
    {
        let Bound { binders, deep } = bound;
        let deep = one_more(body.deep.max(deep.max(condition.deep)));
        let expr = Expr::Each {
            at,
            body: body.expr,
            binders,
            condition: Some(condition.expr),
        };
        let expr = Box::new(alloc, expr)?;
        Ok(Measured { expr, deep })
    }
}

impl Arguments {
    ghost use Rattle.snesl_grammar.specs.tree.Tree.{none};
    ghost use Rattle.snesl_grammar.specs.Expressions.{added};
    ghost use Rattle.snesl_syntax.specs.expressions.Parts.{tree_in, trees_in};

    pub fn none(alloc: Global) -> Arguments
        ensures { trees_in result ≡ none }
    {
        Arguments {
            exprs: Vec::new(alloc),
            deep: 0,
        }
    }

    pub fn with(self, last: Measured) -> Result<Arguments, AllocError>
        ensures { IfOk result (λ all. trees_in all ≡ added (trees_in self) (tree_in last)) }
    {
        let Arguments { mut exprs, deep } = self;
        let deep = deep.max(last.deep);
        exprs.push(Box::into_inner(last.expr))?;
        Ok(Arguments { exprs, deep })
    }
}

impl Bound {
    ghost use Rattle.snesl_grammar.specs.tree.Tree.{none_bound};
    ghost use Rattle.snesl_grammar.specs.Expressions.{bound_also};
    ghost use Rattle.snesl_syntax.specs.expressions.Parts.{tree_in, bound_in};

    pub fn none(alloc: Global) -> Bound
        ensures { bound_in result ≡ none_bound }
    {
        Bound {
            binders: Vec::new(alloc),
            deep: 0,
        }
    }

    pub fn with(self, name: Span, source: Measured) -> Result<Bound, AllocError>
        ensures { IfOk result
            (λ all. bound_in all ≡ bound_also (bound_in self) name (tree_in source)) }
    {
        let Bound { mut binders, deep } = self;
        let deep = deep.max(source.deep);
        let source = Box::into_inner(source.expr);
        binders.push(Binder { name, source })?;
        Ok(Bound { binders, deep })
    }
}

// The depth of a form around a part of this depth.
fn one_more(deep: usize) -> usize
    ensures { result ≡ min (suc deep) (suc greatest_depth) }
{
    deep.min(GREATEST_DEPTH) + 1
}
