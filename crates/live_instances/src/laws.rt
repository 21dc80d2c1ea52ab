// Laws of the order in which instances stand.
ghost use Rattle.std.specs.Prelude.{◌≡◌, ◌∷◌, suc, true, List, length, Some, None};
ghost use Rattle.core_model.specs.Names.{Name};
ghost use Rattle.client_model.specs.Instance.{Instance, is_live, live_at, numbered};
ghost use Rattle.client_model.specs.Linking.{number_in};
ghost use Rattle.live_instances.specs.Orderly.{Orderly};

/// A live instance of the next number, of a name that has none, stands before the others, and all stand in
/// order.
pub fn new_one_stands_first()
    ensures { (i : Instance) (is : List Instance) → i.number ≡ suc (length is) → is_live i ≡ true
        → number_in (live_at is i.name) ≡ None → Orderly is → Orderly (i ∷ is) }
{}

/// What is live under a name is the instance of its number.
pub fn live_one_has_its_number()
    ensures { (n : Name) (is : List Instance) (i : Instance) → Orderly is → live_at is n ≡ Some i
        → numbered is i.number ≡ Some i }
{}
