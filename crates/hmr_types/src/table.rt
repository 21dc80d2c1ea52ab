// Tables: what a client has, as the names of its modules in order, each with its version.
ghost use Rattle.std.specs.List.{list_all};
ghost use Rattle.std.specs.Prelude.{◌≡◌, ◌↔◌, IfSome, IsSome, is_some, true};
ghost use Rattle.hmr_types.specs.Table.{IsTable, is_table, is_version, rises};

use crate::limits::LARGEST_NUMBER;
use crate::{ModName, Sequence, Ver};
use std::marker::Model;

/// Names of modules, each with a version, which contracts see as the list of the pairs. The names
/// rise strictly by bytes, and each version is from 1 to 9007199254740991.
#[derive(Clone, Debug, Drop, Eq, PartialEq)]
pub struct Table {
    pairs: Sequence<(ModName, Ver)>,
}

impl Model for Table {
    ghost use Rattle.std.specs.Prelude.{◌≡◌, ℕ, List, true};
    ghost use Rattle.hmr_types.specs.Table.{is_table};

    ghost Value = { List (List ℕ × ℕ) };

    ghost view = { λ t. t.pairs };

    ghost invariant = { λ t. is_table t.pairs ≡ true };

    ghost inverse = { λ pairs. record { pairs = pairs } };
}

impl Table {
    /// The table of these pairs, or None exactly where a name isn't below the next by bytes or a
    /// version is out of range. It takes time in proportion to the pairs.
    pub fn of(pairs: Vec<(ModName, Ver)>) -> Option<Table>
        ensures some { IfSome result (λ table. table ≡ pairs.items) }
        ensures test { is_some result ≡ is_table pairs.items }
        ensures table { IsSome result ↔ IsTable pairs.items }
    {
        if is_table(&pairs) {
            Some(Table {
                pairs: Sequence::from_vec(pairs),
            })
        } else {
            None
        }
    }

    /// The pairs, in order.
    pub fn as_slice(&self) -> &[(ModName, Ver)]
        ensures value { result.now ≡ self.now }
        ensures test { is_table self.now ≡ true }
        ensures table { IsTable self.now }
    {
        self.pairs.as_slice()
    }

    /// The pairs, in order.
    pub fn into_vec(self) -> Vec<(ModName, Ver)>
        ensures { result.items ≡ self }
    {
        self.pairs.into_vec()
    }
}

fn is_table(pairs: &[(ModName, Ver)]) -> bool
    ensures { result ≡ is_table pairs.now }
{
    rise(pairs) && are_versions(pairs)
}

fn rise(pairs: &[(ModName, Ver)]) -> bool
    ensures { result ≡ rises pairs.now }
{
    pairs.is_sorted_by(|p, q| p.0 < q.0)
}

fn are_versions(pairs: &[(ModName, Ver)]) -> bool
    ensures { result ≡ list_all (λ p. is_version p.1) pairs.now }
{
    pairs.iter().all(|(_, version)| is_version(*version))
}

fn is_version(version: Ver) -> bool
    ensures { result ≡ is_version version }
{
    1 <= version && version <= LARGEST_NUMBER
}
