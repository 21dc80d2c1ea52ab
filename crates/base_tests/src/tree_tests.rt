// What no clause says: that a row of operators that fills a text is copied and dropped without stack.
use module_tree::{Expr, Item, Module, Op, Stmt};
use std::alloc::{AllocError, Global};
use std::test::Fail;

fn sum_of(alloc: Global, operands: usize) -> Result<Expr, AllocError> {
    let mut row = Expr::Num(0);
    for _ in 1..operands {
        row = Expr::Binary(
            Op::Add,
            Box::new(alloc, row)?,
            Box::new(alloc, Expr::Num(1))?,
        );
    }
    Ok(row)
}

#[test]
fn a_row_that_fills_a_text_is_copied_and_let_go(rt: HostRuntime) -> Result<(), Fail> {
    let alloc = rt.alloc();
    let row = sum_of(alloc, 300_000)?;
    let copy = row.copy(alloc)?;
    let mut operators: u32 = 0;
    let mut rest = &copy;
    while let Expr::Binary(_, left, _) = rest {
        operators = operators.wrapping_add(1);
        rest = left;
    }
    assert_eq!(rt; operators, 299_999);

    let items = vec![in alloc; Item::Do(Stmt::Throw(copy))]?;
    let module = Module { items };
    assert_eq!(rt; module.copy(alloc)?.items.len(), 1);
    Ok(())
}
