// A link over a WebSocket. A message is a text; a binary message is read as one, and pings and pongs are
// passed over. The end of the connection is None where the other end closed it by the protocol, and a fault
// where the stream was cut.
ghost use Rattle.std.specs.Prelude.{◌≡◌, ◌≤◌, ℕ, None, length, IfOk, IfSome};
ghost use Rattle.hmr_base.specs.Causes.{Rose};
ghost use Rattle.hmr_base.specs.declared.out_fault.OutFault.{OutFault};
ghost use Rattle.transport.specs.declared.link.Phase.{Phase};
ghost use Rattle.transport.specs.Messages.{message_bytes};

use hmr_types::limits::MESSAGE_BYTES;
use std::alloc::Global;
use std::io::{Read, Write};
use std::random::RandomSource;
use std::sync::Wait;
use std::thread;
use std::time::{Clock, Duration};
use transport::{Link, OutFault, Phase};
use tungstenite::handshake::client::request_of;
use tungstenite::{
    Error, HandshakeError, MaskKeys, Message, NoMask, RandomKeys, WebSocket, WebSocketConfig,
    accept, client,
};

/// How long a client rests that was told there is nothing new, in milliseconds.
const PAUSE_MILLIS: u64 = 50;

/// What a client asks for at its handshake.
const ADDRESS: &str = "ws://127.0.0.1/";

// A stream before its handshake.
#[derive(Drop)]
enum Side<S: Drop> {
    Server(S),
    Client(S),
}

// A socket after it.
#[derive(Drop)]
enum Socket<S: Drop, R: Drop> {
    Server(WebSocket<S, NoMask>),
    Client(WebSocket<S, RandomKeys<R>>),
}

/// A link over a WebSocket, which it speaks over a stream as its server or as its client. It tells no
/// messages. The runtime that it holds is the source of a client's random bytes, what it waits by, and the
/// clock of its pauses.
#[derive(Drop)]
pub struct WsLink<S: Drop, R: Drop> {
    rt: R,
    side: Option<Side<S>>,
    socket: Option<Socket<S, R>>,
    phase: Phase,
    faults: u64,
}

impl<S: Read + Write + Drop, R: RandomSource + Wait + Copy + Drop> WsLink<S, R> {
    /// A fresh link over this stream, as the server of it.
    pub fn server(rt: R, stream: S) -> Self
        ensures fresh { result.phase ≡ Phase.Fresh }
        ensures faults { result.faults ≡ 0 }
    {
        WsLink::new(rt, Side::Server(stream))
    }

    /// A fresh link over this stream, as the client of it.
    pub fn client(rt: R, stream: S) -> Self
        ensures fresh { result.phase ≡ Phase.Fresh }
        ensures faults { result.faults ≡ 0 }
    {
        WsLink::new(rt, Side::Client(stream))
    }

    fn new(rt: R, side: Side<S>) -> Self
        ensures fresh { result.phase ≡ Phase.Fresh }
        ensures faults { result.faults ≡ 0 }
    {
        WsLink {
            rt,
            side: Some(side),
            socket: None,
            phase: Phase::Fresh,
            faults: 0,
        }
    }

    /// How often it has failed, up to the largest `u64`.
    pub fn faults(&self) -> u64
        ensures { result ≡ self.now.faults }
    {
        self.faults
    }

    // Counts a refusal, unless memory ran out.
    fn count(&mut self, fault: OutFault) -> OutFault
        ensures fault { result ≡ fault }
        ensures phase { self.new.phase ≡ self.old.phase }
        ensures later { self.old.faults ≤ self.new.faults }
        ensures rose { fault ≡ OutFault.Failed → Rose self.old.faults self.new.faults }
    {
        if fault == OutFault::Failed {
            self.faults = self.faults.saturating_add(1);
        }
        fault
    }
}

impl<S: Read + Write + Drop, R: RandomSource + Clock + Wait + Copy + Drop> Link for WsLink<S, R> {
    ghost phase = { λ link. link.phase };

    ghost faults = { λ link. link.faults };

    ghost left = { λ _. None };

    ghost sent = { λ _. None };

    ghost plan = { λ _. None };

    fn open(&mut self, alloc: Global) -> Result<(), OutFault> {
        let socket = match self.side.take() {
            Some(side) => shake_hands(alloc, self.rt, side),
            None => Err(OutFault::Failed),
        };
        match socket {
            Ok(socket) => {
                self.socket = Some(socket);
                self.phase = Phase::Open;
                Ok(())
            }
            Err(fault) => Err(self.count(fault)),
        }
    }

    fn send(&mut self, alloc: Global, message: &[u8]) -> Result<(), OutFault> {
        let sent = match &mut self.socket {
            Some(Socket::Server(socket)) => send_on(socket, alloc, message),
            Some(Socket::Client(socket)) => send_on(socket, alloc, message),
            None => Err(OutFault::Failed),
        };
        match sent {
            Ok(()) => Ok(()),
            Err(fault) => Err(self.count(fault)),
        }
    }

    fn recv(&mut self, alloc: Global) -> Result<Option<Vec<u8>>, OutFault> {
        let rt = self.rt;
        let got = match &mut self.socket {
            Some(Socket::Server(socket)) => recv_on(&rt, socket, alloc),
            Some(Socket::Client(socket)) => recv_on(&rt, socket, alloc),
            None => Err(OutFault::Failed),
        };
        match got {
            Ok(got) => Ok(got),
            Err(fault) => Err(self.count(fault)),
        }
    }

    fn pause(&self) {
        thread::sleep(&self.rt, Duration::from_millis(PAUSE_MILLIS));
    }

    fn close(&mut self) {
        match self.socket.take() {
            Some(Socket::Server(mut socket)) => {
                let _ = socket.close(None);
            }
            Some(Socket::Client(mut socket)) => {
                let _ = socket.close(None);
            }
            None => {}
        }
        self.side = None;
        self.phase = Phase::Shut;
    }
}

// The handshake of one side.
fn shake_hands<S: Read + Write + Drop, R: RandomSource + Drop>(
    alloc: Global,
    rt: R,
    side: Side<S>,
) -> Result<Socket<S, R>, OutFault> {
    match side {
        Side::Server(stream) => serve(alloc, stream),
        Side::Client(stream) => connect(alloc, rt, stream),
    }
}

fn serve<S: Read + Write + Drop, R: Drop>(
    alloc: Global,
    stream: S,
) -> Result<Socket<S, R>, OutFault> {
    match accept(alloc, stream) {
        Ok(mut socket) => {
            socket.set_config(limits());
            Ok(Socket::Server(socket))
        }
        Err(HandshakeError::Failure(error)) => Err(fault_of(&error)),
        Err(HandshakeError::Interrupted(_)) => Err(OutFault::Failed),
    }
}

fn connect<S: Read + Write + Drop, R: RandomSource + Drop>(
    alloc: Global,
    rt: R,
    stream: S,
) -> Result<Socket<S, R>, OutFault> {
    let request = match request_of(alloc, ADDRESS) {
        Ok(request) => request,
        Err(error) => return Err(fault_of(&error)),
    };
    match client(alloc, rt, request, stream) {
        Ok((mut socket, _)) => {
            socket.set_config(limits());
            Ok(Socket::Client(socket))
        }
        Err(HandshakeError::Failure(error)) => Err(fault_of(&error)),
        Err(HandshakeError::Interrupted(_)) => Err(OutFault::Failed),
    }
}

// A peer can't make the socket hold more than the longest message.
fn limits() -> WebSocketConfig {
    WebSocketConfig::default()
        .max_message_size(Some(MESSAGE_BYTES))
        .max_frame_size(Some(MESSAGE_BYTES))
}

fn fault_of(error: &Error) -> OutFault {
    match error {
        Error::OutOfMemory => OutFault::NoMemory,
        _ => OutFault::Failed,
    }
}

fn send_on<S: Read + Write + Drop, K: MaskKeys + Drop>(
    socket: &mut WebSocket<S, K>,
    alloc: Global,
    message: &[u8],
) -> Result<(), OutFault> {
    if message.len() > MESSAGE_BYTES {
        return Err(OutFault::Failed);
    }
    let Ok(text) = str::from_utf8(message) else {
        return Err(OutFault::Failed);
    };
    let text = Message::text(alloc, text)?;
    match socket.send(text) {
        Ok(()) => Ok(()),
        Err(error) => Err(fault_of(&error)),
    }
}

// The next text or binary message; the socket answers pings itself.
fn recv_on<S: Read + Write + Drop, K: MaskKeys + Drop>(
    rt: &impl Wait,
    socket: &mut WebSocket<S, K>,
    alloc: Global,
) -> Result<Option<Vec<u8>>, OutFault>
    ensures bound { IfOk result (λ got. IfSome got (λ v. length v.items ≤ message_bytes)) }
{
    for _ in rt.forever() {
        match socket.read() {
            Ok(Message::Text(text)) => return bytes_of(alloc, text.as_bytes()),
            Ok(Message::Binary(bytes)) => return bytes_of(alloc, &bytes),
            Ok(_) => {}
            Err(Error::ConnectionClosed) => return Ok(None),
            Err(error) => return Err(fault_of(&error)),
        }
    }
    unreachable!()
}

fn bytes_of(alloc: Global, bytes: &[u8]) -> Result<Option<Vec<u8>>, OutFault>
    ensures bound { IfOk result (λ got. IfSome got (λ v. length v.items ≤ message_bytes)) }
{
    if bytes.len() > MESSAGE_BYTES {
        return Err(OutFault::Failed);
    }
    let bytes = Vec::from_slice(alloc, bytes)?;
    Ok(Some(bytes))
}
