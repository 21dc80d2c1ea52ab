// Which messages answer which request, and the places of both in the tables of messages.
ghost use Rattle.std.specs.Prelude.{◌≡◌, ◌==◌, false, true};
ghost use Rattle.client_model.specs.Expecting.{answers_ask, answers_fetch, answers_hello, answers_told};
ghost use Rattle.client_model.specs.Expecting.{answer_place, is_answer, request_place};

use hmr_types::ModName;
use update_msgs::{ClientMsg, ServerMsg};

/// Whether the message answers the request, of a page that is loaded or not.
pub fn is_answer(loaded: bool, asked: &ClientMsg, msg: &ServerMsg) -> bool
    ensures { result ≡ is_answer loaded asked.now msg.now }
{
    match asked {
        ClientMsg::Hello { .. } => answers_hello(msg),
        ClientMsg::Ask => answers_ask(loaded, msg),
        ClientMsg::Fetch { path } => answers_fetch(path, msg),
        ClientMsg::Applied { .. } | ClientMsg::Aborted { .. } | ClientMsg::Bye => is_done(msg),
        ClientMsg::Invalidate { .. } => answers_invalidate(msg),
    }
}

// A client number; or that there is none left, that this client has one, or that its roots are bad.
fn answers_hello(msg: &ServerMsg) -> bool
    ensures { result ≡ answers_hello msg.now }
{
    match msg {
        ServerMsg::Connected { .. } => true,
        ServerMsg::Refused { code, .. } => *code == 2 || (*code == 3 || *code == 7),
        _ => false,
    }
}

// What is there to do.
fn answers_ask(loaded: bool, msg: &ServerMsg) -> bool
    ensures { result ≡ answers_ask loaded msg.now }
{
    match msg {
        ServerMsg::Connected { .. } => !loaded,
        ServerMsg::Update { .. } | ServerMsg::Prune { .. } | ServerMsg::FullReload { .. } => loaded,
        ServerMsg::Error { .. } | ServerMsg::Idle => true,
        _ => false,
    }
}

// The module that was asked for, or why there is none.
fn answers_fetch(asked: &ModName, msg: &ServerMsg) -> bool
    ensures { result ≡ answers_fetch asked.now msg.now }
{
    match msg {
        ServerMsg::Broken { path, .. }
        | ServerMsg::Text { path, .. }
        | ServerMsg::Missing { path }
        | ServerMsg::NotYet { path } => *asked == *path,
        _ => false,
    }
}

/// Whether what was told is taken note of.
pub fn is_done(msg: &ServerMsg) -> bool
    ensures { result ≡ answers_told (λ code. false) msg.now }
{
    matches!(msg, ServerMsg::Done)
}

/// Whether what was told is taken note of, or refused.
pub fn is_note(msg: &ServerMsg) -> bool
    ensures { result ≡ answers_told (λ code. true) msg.now }
{
    match msg {
        ServerMsg::Done | ServerMsg::Refused { .. } => true,
        _ => false,
    }
}

// It is taken note of, or the version isn't the live one.
fn answers_invalidate(msg: &ServerMsg) -> bool
    ensures { result ≡ answers_told (λ code. code == 6) msg.now }
{
    match msg {
        ServerMsg::Done => true,
        ServerMsg::Refused { code, .. } => *code == 6,
        _ => false,
    }
}

/// The place of a request in the table of requests, from 1.
pub fn request_place(asked: &ClientMsg) -> u8
    ensures { result ≡ request_place asked.now }
{
    match asked {
        ClientMsg::Hello { .. } => 1,
        ClientMsg::Ask => 2,
        ClientMsg::Fetch { .. } => 3,
        ClientMsg::Applied { .. } => 4,
        ClientMsg::Aborted { .. } => 5,
        ClientMsg::Invalidate { .. } => 6,
        ClientMsg::Bye => 7,
    }
}

/// The place of an answer in the table of answers, from 1.
pub fn answer_place(msg: &ServerMsg) -> u8
    ensures { result ≡ answer_place msg.now }
{
    match msg {
        ServerMsg::Connected { .. } => 1,
        ServerMsg::Update { .. } => 2,
        ServerMsg::Prune { .. } => 3,
        ServerMsg::FullReload { .. } => 4,
        ServerMsg::Error { .. } => 5,
        ServerMsg::Broken { .. } => 6,
        ServerMsg::Idle => 7,
        ServerMsg::Done => 8,
        ServerMsg::Text { .. } => 9,
        ServerMsg::Missing { .. } => 10,
        ServerMsg::NotYet { .. } => 11,
        ServerMsg::Refused { .. } => 12,
    }
}
