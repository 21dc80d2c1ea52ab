// An expression that is a name alone. A row without operators is its operand.
ghost use Rattle.std.specs.Prelude.{◌≡◌};
ghost use Rattle.std.specs.Option.{option_map};
ghost use Rattle.raw_trees.specs.Raw.{name_at_of, raw_expr_of};
ghost use Rattle.name_rules.specs.Alone.{alone};

use raw_trees::{NameAt, RawExpr};

/// The name that an expression is, unless it is another expression.
pub fn alone(e: &RawExpr) -> Option<&NameAt>
    ensures { option_map (λ n. name_at_of n.now) result ≡ alone (raw_expr_of e.now) }
{
    match e {
        RawExpr::Name(name) => Some(name),
        RawExpr::Row(first, rest) => { if rest.is_empty() { alone(first) } else { None } }
        RawExpr::Num(_) | RawExpr::Text(_) | RawExpr::Undefined | RawExpr::Bag(_) => None,
        RawExpr::Member {
            base: _,
            safe: _,
            key: _,
        } => None,
        RawExpr::Neg(_) | RawExpr::Choose(_, _, _) => None,
    }
}
