// When a client is caught up, and how far it is from it.
ghost use Rattle.std.specs.Prelude.{◌≡◌, ◌↔◌, ◌≤◌, true};
ghost use Rattle.core_model.specs.Sources.{Sources};
ghost use Rattle.core_model.specs.Client.{Client};
ghost use Rattle.client_model.specs.Runtime.{Runtime};
ghost use Rattle.world_model.specs.CaughtUp.{IsCaughtUp, is_caught_up, debt, largest_debt};

/// The test says that a client is caught up exactly where it is: its page is loaded, no plan is under
/// way, and nothing is changed, invalidated, dropped or waiting to be told, on either side.
pub fn caught_up_is_tested()
    ensures { (s : Sources) (c : Client) (r : Runtime) → (is_caught_up s c r ≡ true) ↔ IsCaughtUp s c r }
{}

/// The debt of a client is at most twice the served modules, the waiting notices, the unsent
/// invalidations, and seven.
pub fn debt_is_bounded()
    ensures { (s : Sources) (c : Client) (r : Runtime) → debt s c r ≤ largest_debt s c r }
{}

/// No debt is left exactly where the client is caught up.
pub fn no_debt_is_left()
    ensures { (s : Sources) (c : Client) (r : Runtime) → (debt s c r ≡ 0) ↔ IsCaughtUp s c r }
{}
