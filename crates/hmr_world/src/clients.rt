// The open clients under their numbers, of which there are at most 32.
ghost use Rattle.std.specs.Prelude.{◌≡◌, ◌<◌};
ghost use Rattle.std.specs.Prelude.{ℕ, IfNone, IfSome, None, Some, get_or, length, option_map, slice_set};
ghost use Rattle.core_model.specs.Core.{client_at, with_client, without_client};
ghost use Rattle.runtime_state.specs.declared.runtime.HotRuntime.{HotRuntime};

use hmr_types::ClientId;
use runtime_state::HotRuntime;

/// An open client under its number.
pub(crate) type Row<F> = (ClientId, HotRuntime<F>);

/// Where an open client stands.
pub(crate) fn place_of<F>(clients: &[Row<F>], number: ClientId) -> Option<usize>
    ensures none { IfNone result (client_at clients.now number ≡ None) }
    ensures within { IfSome result (λ place. place < length clients.now) }
    ensures there { IfSome result
        (λ place. (d : ℕ × HotRuntime F)
        → client_at clients.now number ≡ Some (get_or clients.now place d).1) }
    ensures number { IfSome result
        (λ place. (d : ℕ × HotRuntime F) → (get_or clients.now place d).0 ≡ number) }
    ensures with { IfSome result
        (λ place. (h : HotRuntime F)
        → with_client number h clients.now ≡ slice_set clients.now place (number, h)) }
{
    for place in 0..clients.len() {
        if clients[place].0 == number {
            return Some(place);
        }
    }
    None
}

/// The runtime of an open client.
pub(crate) fn client_at<F>(clients: &[Row<F>], number: ClientId) -> Option<&HotRuntime<F>>
    ensures { option_map (λ h. h.now) result ≡ client_at clients.now number }
{
    match place_of(clients, number) {
        Some(place) => Some(&clients[place].1),
        None => None,
    }
}

/// Closes a client.
pub(crate) fn take_out<F: Drop>(clients: &mut Vec<Row<F>>, number: ClientId)
    ensures { clients.new.items ≡ without_client number clients.old.items }
{
    clients.retain(|row| row.0 != number);
}
