// The tree of a module text. It forgets guards, parentheses, spaces, comments, the quotes used and
// which form of `throw` stood; the parameter of a dispose or prune callback is forgotten too, since
// its keys are the bag's. Contracts speak of a tree by its plain data, which the fold `module_of`
// gives; a tree itself has pointers in it, which no clause compares.
ghost use Rattle.std.specs.Option.{option_map};
ghost use Rattle.std.specs.Prelude.{◌≡◌, IfOk, map};
ghost use Rattle.module_tree.specs.Syntax.{binary};
ghost use Rattle.module_tree.specs.Tree.{cond_of, expr_of, handler_of, item_of, module_of};
ghost use Rattle.module_tree.specs.Tree.{once_of, stmt_of, stmts_of};

use hmr_types::{Name, Sequence, Text};
use std::alloc::{AllocError, Global};

/// A whole module.
#[derive(Drop)]
pub struct Module {
    /// Its items, in the order of the text.
    pub items: Vec<Item>,
}

/// An exported name that is imported, and the local name that it has in the importer.
#[derive(Clone, Debug, Drop, Eq, PartialEq)]
pub struct ImportName {
    /// The name that the imported module exports.
    pub exported: Name,
    /// The name that it has in the importer.
    pub local: Name,
}

/// One item of a module.
#[derive(Drop)]
pub enum Item {
    /// An `import` of these names, perhaps none.
    Import {
        spec: Text,
        names: Sequence<ImportName>,
    },
    /// A declaration: by `let` where it is mutable, else by `const`.
    Declare {
        exported: bool,
        mutable: bool,
        name: Name,
        value: Expr,
    },
    /// A statement at the top of the module.
    Do(Stmt),
    /// `accept` of the module itself, perhaps with a callback.
    Own(Option<Once>),
    /// `accept` of one dependency, or of a list of them, perhaps with a callback.
    Deps {
        list: bool,
        specs: Sequence<Text>,
        call: Option<HandlerCode>,
    },
    /// `dispose` with a callback.
    Dispose(Once),
    /// `prune` with a callback.
    Prune(Once),
    /// `decline`.
    Decline,
}

/// A handler that runs at most once.
#[derive(Drop)]
pub enum Once {
    /// Code of the module.
    Code(HandlerCode),
    /// The closure of the embedding program that has this label.
    Host(Text),
}

/// A callback.
#[derive(Drop)]
pub struct HandlerCode {
    /// Its parameters, in order.
    pub params: Sequence<Name>,
    /// Its statements, in order.
    pub body: Vec<Stmt>,
}

/// A statement.
#[derive(Drop)]
pub enum Stmt {
    /// A line of the console, from these values.
    Log(Vec<Expr>),
    /// A new value for a variable of the module.
    Assign(Name, Expr),
    /// A new value for a key of the bag.
    BagSet(Name, Expr),
    /// `throw` of the text of this value.
    Throw(Expr),
    /// `invalidate`, perhaps with a message.
    Invalidate(Option<Expr>),
    /// The first statements where the condition holds, and else the second.
    If(Cond, Vec<Stmt>, Vec<Stmt>),
}

/// The condition of an `if`.
#[derive(Drop)]
pub enum Cond {
    /// Whether the parameter of this place, from 0, is a module.
    Param(u32),
    /// Whether this value counts as true.
    Value(Expr),
}

/// An expression.
pub enum Expr {
    /// A number, as it is written.
    Num(u64),
    /// A text, with its escapes read.
    Text(Text),
    /// `undefined`.
    Undefined,
    /// The value of a variable or of an import.
    Name(Name),
    /// The value of a key of the bag.
    Bag(Name),
    /// An export of the module that is given as the parameter of this place, from 0: by `?.` where
    /// it is safe, else by `.`.
    Member { param: u32, safe: bool, name: Name },
    /// The number with the other sign.
    Neg(Box<Expr>),
    /// Two operands with an operator between them.
    Binary(Op, Box<Expr>, Box<Expr>),
    /// The second where the first counts as true, and else the third.
    Choose(Box<Expr>, Box<Expr>, Box<Expr>),
}

/// An operator between two operands.
#[derive(Clone, Copy, Debug, PartialEq, Eq)]
pub enum Op {
    /// `??`
    Null,
    /// `+`
    Add,
    /// `-`
    Sub,
    /// `*`
    Mul,
}

/// A row of operators is dropped by a loop, since a row may fill a text: only what is nested costs
/// stack.
impl Drop for Expr {
    fn drop(mut self) {
        loop {
            match self {
                Expr::Num(_) | Expr::Undefined => return,
                Expr::Text(_) | Expr::Name(_) | Expr::Bag(_) => return,
                Expr::Member {
                    param: _,
                    safe: _,
                    name: _,
                } => return,
                Expr::Neg(a) => self = Box::into_inner(a),
                Expr::Binary(_, a, _b) => self = Box::into_inner(a),
                Expr::Choose(a, _b, _c) => self = Box::into_inner(a),
            }
        }
    }
}

impl Expr {
    /// A copy. It takes time and memory in proportion to the expression; a row of operators is copied
    /// by a loop, so that only what is nested costs stack.
    #[cycle(exprs)]
    pub fn copy(&self, alloc: Global) -> Result<Expr, AllocError>
        ensures { IfOk result (λ copy. expr_of copy ≡ expr_of self.now) }
    {
        let mut row = Vec::new(alloc);
        let mut rest = self;
        let mut copy = loop {
            match rest {
                Expr::Binary(op, left, right) => {
                    row.push((*op, right.copy(alloc)?))?;
                    rest = left;
                }
                Expr::Num(n) => break Expr::Num(*n),
                Expr::Text(text) => break Expr::Text(text.clone()?),
                Expr::Undefined => break Expr::Undefined,
                Expr::Name(name) => break Expr::Name(name.clone()?),
                Expr::Bag(key) => break Expr::Bag(key.clone()?),
                Expr::Member { param, safe, name } => {
                    break Expr::Member {
                        param: *param,
                        safe: *safe,
                        name: name.clone()?,
                    };
                }
                Expr::Neg(a) => break Expr::Neg(a.copy_boxed(alloc)?),
                Expr::Choose(a, b, c) => {
                    break Expr::Choose(
                        a.copy_boxed(alloc)?,
                        b.copy_boxed(alloc)?,
                        c.copy_boxed(alloc)?,
                    );
                }
            }
        };
        while let Some((op, right)) = row.pop() {
            copy = joined(alloc, op, copy, right)?;
        }
        Ok(copy)
    }

    #[cycle(exprs)]
    fn copy_boxed(&self, alloc: Global) -> Result<Box<Expr>, AllocError>
        ensures { IfOk result (λ copy. expr_of copy.value ≡ expr_of self.now) }
    {
        Ok(Box::new(alloc, self.copy(alloc)?)?)
    }
}

/// Two operands with their operator.
fn joined(alloc: Global, op: Op, left: Expr, right: Expr) -> Result<Expr, AllocError>
    ensures { IfOk result (λ e. expr_of e ≡ binary op (expr_of left) (expr_of right)) }
{
    Ok(Expr::Binary(op, Box::new(alloc, left)?, Box::new(alloc, right)?))
}

fn copy_exprs(alloc: Global, exprs: &[Expr]) -> Result<Vec<Expr>, AllocError>
    ensures { IfOk result (λ copies. map expr_of copies.items ≡ map expr_of exprs.now) }
{
    let mut copies = Vec::new(alloc);
    for expr in exprs {
        copies.push(expr.copy(alloc)?)?;
    }
    Ok(copies)
}

impl Cond {
    /// A copy.
    pub fn copy(&self, alloc: Global) -> Result<Cond, AllocError>
        ensures { IfOk result (λ copy. cond_of copy ≡ cond_of self.now) }
    {
        match self {
            Cond::Param(place) => Ok(Cond::Param(*place)),
            Cond::Value(value) => Ok(Cond::Value(value.copy(alloc)?)),
        }
    }
}

impl Stmt {
    /// A copy. It takes time and memory in proportion to the statement.
    #[cycle(stmts)]
    pub fn copy(&self, alloc: Global) -> Result<Stmt, AllocError>
        ensures { IfOk result (λ copy. stmt_of copy ≡ stmt_of self.now) }
    {
        match self {
            Stmt::Log(args) => Ok(Stmt::Log(copy_exprs(alloc, args)?)),
            Stmt::Assign(name, value) => Ok(Stmt::Assign(name.clone()?, value.copy(alloc)?)),
            Stmt::BagSet(key, value) => Ok(Stmt::BagSet(key.clone()?, value.copy(alloc)?)),
            Stmt::Throw(value) => Ok(Stmt::Throw(value.copy(alloc)?)),
            Stmt::Invalidate(None) => Ok(Stmt::Invalidate(None)),
            Stmt::Invalidate(Some(message)) => Ok(Stmt::Invalidate(Some(message.copy(alloc)?))),
            Stmt::If(condition, first, second) => Ok(Stmt::If(
                condition.copy(alloc)?,
                copy_stmts(alloc, first)?,
                copy_stmts(alloc, second)?,
            )),
        }
    }
}

/// A copy of statements, in order. It takes time and memory in proportion to them.
#[cycle(stmts)]
pub fn copy_stmts(alloc: Global, stmts: &[Stmt]) -> Result<Vec<Stmt>, AllocError>
    ensures { IfOk result (λ copies. stmts_of copies.items ≡ stmts_of stmts.now) }
{
    let mut copies = Vec::new(alloc);
    for stmt in stmts {
        copies.push(stmt.copy(alloc)?)?;
    }
    Ok(copies)
}

impl HandlerCode {
    /// A copy. It takes time and memory in proportion to the callback.
    pub fn copy(&self, alloc: Global) -> Result<HandlerCode, AllocError>
        ensures { IfOk result (λ copy. handler_of copy ≡ handler_of self.now) }
    {
        Ok(HandlerCode {
            params: self.params.clone()?,
            body: copy_stmts(alloc, &self.body)?,
        })
    }
}

impl Once {
    /// A copy. It takes time and memory in proportion to the handler.
    pub fn copy(&self, alloc: Global) -> Result<Once, AllocError>
        ensures { IfOk result (λ copy. once_of copy ≡ once_of self.now) }
    {
        match self {
            Once::Code(code) => Ok(Once::Code(code.copy(alloc)?)),
            Once::Host(label) => Ok(Once::Host(label.clone()?)),
        }
    }
}

impl Item {
    /// A copy. It takes time and memory in proportion to the item.
    pub fn copy(&self, alloc: Global) -> Result<Item, AllocError>
        ensures { IfOk result (λ copy. item_of copy ≡ item_of self.now) }
    {
        match self {
            Item::Import { spec, names } => Ok(Item::Import {
                spec: spec.clone()?,
                names: names.clone()?,
            }),
            Item::Declare {
                exported,
                mutable,
                name,
                value,
            } => Ok(Item::Declare {
                exported: *exported,
                mutable: *mutable,
                name: name.clone()?,
                value: value.copy(alloc)?,
            }),
            Item::Do(stmt) => Ok(Item::Do(stmt.copy(alloc)?)),
            Item::Own(None) => Ok(Item::Own(None)),
            Item::Own(Some(once)) => Ok(Item::Own(Some(once.copy(alloc)?))),
            Item::Deps { list, specs, call } => Ok(Item::Deps {
                list: *list,
                specs: specs.clone()?,
                call: match call {
                    None => None,
                    Some(code) => Some(code.copy(alloc)?),
                },
            }),
            Item::Dispose(once) => Ok(Item::Dispose(once.copy(alloc)?)),
            Item::Prune(once) => Ok(Item::Prune(once.copy(alloc)?)),
            Item::Decline => Ok(Item::Decline),
        }
    }
}

impl Module {
    /// A copy. It takes time and memory in proportion to the module.
    pub fn copy(&self, alloc: Global) -> Result<Module, AllocError>
        ensures { IfOk result (λ copy. module_of copy ≡ module_of self.now) }
    {
        let mut items = Vec::new(alloc);
        for item in &self.items {
            items.push(item.copy(alloc)?)?;
        }
        Ok(Module { items })
    }
}
