// Names and what each holds, in a plain vector: found by a walk from its front.
ghost use Rattle.std.specs.Prelude.{◌≡◌, ◌<◌, ◌≤◌, length, IfSome, IfNone, OnOk, OnErr};
ghost use Rattle.std.specs.Option.{option_map};
ghost use Rattle.module_semantics.specs.Entries.{entry_at, with_entry};
ghost use Rattle.retained_data.specs.Places.{place};

use hmr_types::Name;
use std::alloc::AllocError;

/// The first place of a name, None where it isn't there.
#[tactic(auto, unfolding(crate::specs::Places::place))]
fn place_of<V>(entries: &[(Name, V)], name: &Name) -> Option<usize>
    ensures some { IfSome result (λ at. (at ≡ place name.now entries.now) × (at < length entries.now)) }
    ensures none { IfNone result (length entries.now ≤ place name.now entries.now) }
{
    for (at, entry) in entries.iter().enumerate() {
        if entry.0 == *name {
            return Some(at);
        }
    }
    None
}

/// What the first entry of a name holds, None where there is none.
#[tactic(auto, unfolding(module_semantics::specs::Entries::entry_at))]
pub fn entry_at<'a, V>(entries: &'a [(Name, V)], name: &Name) -> Option<&'a V>
    ensures { option_map (λ v. v.now) result ≡ entry_at name.now entries.now }
{
    for (key, value) in entries {
        if key == name {
            return Some(value);
        }
    }
    None
}

/// Puts a value at a name: a name that is there keeps its place, a new one stands last. After a
/// refusal the entries are unchanged.
#[tactic(auto, using(crate::proofs::Places::in_place, crate::proofs::Places::at_end))]
pub fn put_entry<V: Drop>(
    entries: &mut Vec<(Name, V)>,
    name: Name,
    value: V,
) -> Result<(), AllocError>
    ensures ok { OnOk result (entries.new.items ≡ with_entry name value entries.old.items) }
    ensures err { OnErr result (entries.new.items ≡ entries.old.items) }
{
    match place_of(entries, &name) {
        Some(at) => entries[at] = (name, value),
        None => entries.push((name, value))?,
    }
    Ok(())
}
