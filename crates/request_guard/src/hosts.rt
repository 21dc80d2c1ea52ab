// Hosts and origins as texts.
ghost use Rattle.std.specs.Prelude.{◌≡◌};
ghost use Rattle.request_guard.specs.Hosts.{is_at, is_own_host, is_own_origin, is_port};
ghost use Rattle.http_heads.specs.Head.{same_letters};

/// Whether the text is a host of a server at this port of this machine: `localhost`, `127.0.0.1` or `[::1]`
/// in any case of letters, with `:` and the port in decimal behind it. Where the port is 80 it may be left
/// out.
pub fn is_own_host(text: &[u8], port: u16) -> bool
    ensures { result ≡ is_own_host port text.now }
{
    is_at(text, b"localhost", port)
        || is_at(text, b"127.0.0.1", port)
        || is_at(text, b"[::1]", port)
}

/// Whether the text is the origin of a page that a server at this port of this machine gave: `http://` and a
/// host of it.
pub fn is_own_origin(text: &[u8], port: u16) -> bool
    ensures { result ≡ is_own_origin port text.now }
{
    let (scheme, host) = text.split_at(text.len().min(7));
    same_letters(scheme, b"http://") && is_own_host(host, port)
}

// Whether the text is this name and the port.
fn is_at(text: &[u8], name: &[u8], port: u16) -> bool
    ensures { result ≡ is_at name.now port text.now }
{
    let (front, rest) = text.split_at(text.len().min(name.len()));
    same_letters(front, name) && is_port(rest, port)
}

// Whether the text names the port.
fn is_port(text: &[u8], port: u16) -> bool
    ensures { result ≡ is_port port text.now }
{
    match text {
        [] => port == 80,
        [first, digits @ ..] => {
            *first == b':' && digits == itoa::Buffer::new().format(port).as_bytes()
        }
    }
}

/// Whether the texts are equal but for the case of ASCII letters.
pub(crate) fn same_letters(a: &[u8], b: &[u8]) -> bool
    ensures { result ≡ same_letters a.now b.now }
{
    a.eq_ignore_ascii_case(b)
}
