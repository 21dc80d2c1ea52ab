// How many names a body mentions as variables: as many are looked up where it runs, at most, since nothing
// runs twice in it. It only tells which way of looking them up is the faster.
use module_tree::{Cond, Expr, Stmt};

/// How many times statements read or assign variables.
#[cycle(mentions)]
pub fn mentions(stmts: &[Stmt]) -> u64 {
    let mut names = 0u64;
    for stmt in stmts {
        names = names.saturating_add(in_stmt(stmt));
    }
    names
}

#[cycle(mentions)]
fn in_stmt(stmt: &Stmt) -> u64 {
    match stmt {
        Stmt::Log(es) => in_all(es),
        Stmt::Assign(_, e) => in_expr(e).saturating_add(1),
        Stmt::BagSet(_, e) | Stmt::Throw(e) => in_expr(e),
        Stmt::Invalidate(e) => match e {
            Some(e) => in_expr(e),
            None => 0,
        },
        Stmt::If(cond, first, second) => {
            let names = mentions(first).saturating_add(mentions(second));
            in_cond(cond).saturating_add(names)
        }
    }
}

fn in_cond(cond: &Cond) -> u64 {
    match cond {
        Cond::Param(_) => 0,
        Cond::Value(e) => in_expr(e),
    }
}

fn in_all(es: &[Expr]) -> u64 {
    let mut names = 0u64;
    for e in es {
        names = names.saturating_add(in_expr(e));
    }
    names
}

/// How many times an expression reads variables. A row of operators is walked down its left side.
fn in_expr(e: &Expr) -> u64 {
    let mut names = 0u64;
    let mut first = e;
    while let Expr::Binary(_, a, b) = first {
        names = names.saturating_add(in_expr(b));
        first = a;
    }
    let more = match first {
        Expr::Name(_) => 1,
        Expr::Neg(a) => in_expr(a),
        Expr::Choose(c, a, b) => {
            let sides = in_expr(a).saturating_add(in_expr(b));
            in_expr(c).saturating_add(sides)
        }
        _ => 0,
    };
    names.saturating_add(more)
}
