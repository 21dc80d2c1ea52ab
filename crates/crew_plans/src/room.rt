// The room for one more job, and for what it leaves.
ghost use Rattle.std.specs.Prelude.{◌≡◌, OnOk, vec_len};
ghost use Rattle.crew_plans.specs.Gathers.{HasPlace, HasRoom};

use std::alloc::AllocError;

/// Makes room for one more job, and for what it leaves: in `running` for one element more, and in `left` for
/// one of that and of each that runs. The elements of both stay as they are. It fails only where memory runs
/// out; then there is as much room as before for what those that run leave. It takes memory for the room
/// alone, and copies the elements where a list moves.
pub fn reserve_place<J, T>(running: &mut Vec<J>, left: &mut Vec<T>) -> Result<(), AllocError>
    ensures running { running.new.items ≡ running.old.items }
    ensures left { left.new.items ≡ left.old.items }
    ensures counts { (vec_len running.new ≡ vec_len running.old) × (vec_len left.new ≡ vec_len left.old) }
    ensures room { HasRoom running.old left.old → HasRoom running.new left.new }
    ensures place { OnOk result (HasPlace running.new left.new) }
{
    running.reserve(1)?;
    left.reserve(running.len() + 1)
}
