// The terminal of a live server: what it says goes to the output, as lines or as JSON, and keys come from the
// input.
use crate::day_time::day_time;
use crate::keys::{HELP, Keys, QUIT, RELOAD, STALE};
use hmr_base::{Sink, write_all};
use hmr_types::{ClientId, Sequence};
use live_context::{Key, LiveEnd, Terminal};
use live_lines::{AnewCause, Clock, News, PageNews, StaleBinding, Style, json_of, line_of};
use std::alloc::Global;
use std::collections::BTreeMap;
use std::mem;
use std::sync::atomic::Ordering;
use std::time::{self, Instant};

/// What the keys do.
const KEYS: &str =
    "q ends the server, r loads all pages again, s shows the stale bindings of each page, \
h the keys; each with Enter\n";

/// How news are told.
#[derive(Clone, Copy, Debug, PartialEq, Eq)]
pub struct Manner {
    /// The port that was wanted, 0 for any.
    pub wanted: u16,
    pub style: Style,
    pub is_json: bool,
    /// How many seconds the day here is before that of universal time.
    pub offset: u64,
}

/// The terminal of one server after another. It keeps what is to be told of the stale bindings of each page.
/// Where memory runs out a text is left out, and stale bindings aren't kept; nothing else takes memory.
#[derive(Drop)]
pub struct Screen<R: Drop, S: Drop> {
    rt: R,
    out: S,
    manner: Manner,
    keys: Keys,
    // The port that is listened at, once there is one.
    port: Option<u16>,
    // When the server began.
    begun: Option<Instant>,
    is_ready: bool,
    stale: BTreeMap<ClientId, News>,
    // How many edits the modules are that were there at the beginning.
    first: u64,
}

impl<R: time::Clock + Drop, S: Sink + Drop> Screen<R, S> {
    /// A terminal at which nothing was said.
    pub fn new(alloc: Global, rt: R, out: S, manner: Manner, keys: Keys) -> Self {
        Screen {
            rt,
            out,
            manner,
            keys,
            port: None,
            begun: None,
            is_ready: false,
            stale: BTreeMap::new(alloc),
            first: 0,
        }
    }

    /// A server begins at this moment.
    pub fn begin(&mut self, alloc: Global, begun: Option<Instant>) {
        self.begun = begun;
        self.is_ready = false;
        self.stale = BTreeMap::new(alloc);
        self.first = 0;
    }

    /// The port that the server listens at, or the one before it listened at.
    pub fn port(&self) -> Option<u16> {
        self.port
    }

    /// The server listens at this port.
    pub fn listens(&mut self, port: u16) {
        self.port = Some(port);
    }

    /// Tells why the next server begins after one that ended so. False where none is to begin: the one that
    /// ended never served, or no cause is known.
    pub fn begins_anew(&mut self, alloc: Global, end: LiveEnd) -> bool {
        let cause = match end {
            LiveEnd::Reload => return self.is_ready,
            LiveEnd::Full => AnewCause::TranscriptFull,
            LiveEnd::Spent => AnewCause::NumbersSpent,
            LiveEnd::Quit | LiveEnd::Fault | LiveEnd::NoMemory => return false,
        };
        self.say(alloc, &News::Anew { cause });
        self.is_ready
    }

    // Says something. What can't be written, or finds no memory, is left out.
    fn say(&mut self, alloc: Global, news: &News) {
        let clock = day_time(&self.rt, self.manner.offset);
        let bytes = if self.manner.is_json {
            json_of(alloc, clock, news)
        } else {
            line_of(alloc, clock, news, self.manner.style)
        };
        if let Ok(bytes) = bytes {
            let _ = write_all(&mut self.out, &bytes);
        }
    }

    // Keeps which bindings of a page are stale.
    fn keep(&mut self, alloc: Global, news: News) {
        let News::Page { client, news } = news else {
            return;
        };
        match news {
            PageNews::Hot {
                changed: _,
                accepted: _,
                stale,
            } => {
                self.keep_stale(client, stale);
            }
            PageNews::Loaded { modules: _ } => {
                self.keep_stale(client, Sequence::new(alloc));
            }
            PageNews::Closed => {
                let _ = self.stale.remove(&client);
            }
            _ => {}
        }
    }

    // Keeps what is told of the stale bindings of a page, where they are asked for.
    fn keep_stale(&mut self, client: ClientId, bindings: Sequence<StaleBinding>) {
        let _ = self.stale.insert(client, News::Stale { client, bindings });
    }

    // Shows the stale bindings of each page.
    fn show_stale(&mut self, alloc: Global) {
        let pages = mem::replace(&mut self.stale, BTreeMap::new(alloc));
        for (client, news) in pages {
            self.say(alloc, &news);
            let _ = self.stale.insert(client, news);
        }
    }

    fn show_keys(&mut self) {
        if !self.manner.is_json {
            let _ = write_all(&mut self.out, KEYS.as_bytes());
        }
    }

    // Says that all pages are loaded again, since a key asked for it.
    fn say_reload(&mut self, alloc: Global) {
        let Clock {
            hour,
            minute,
            second,
        } = day_time(&self.rt, self.manner.offset);
        let line = if self.manner.is_json {
            format!(in alloc;
                "{{\"time\":\"{hour:02}:{minute:02}:{second:02}\",\"event\":\"anew\",\"why\":\"asked\"}}\n"
            )
        } else {
            format!(in alloc; "{hour:02}:{minute:02}:{second:02} all pages are loaded again\n")
        };
        if let Ok(line) = line {
            let _ = write_all(&mut self.out, line.as_bytes());
        }
    }

    // How many milliseconds went by since the beginning; 0 where the clock fails.
    fn millis(&self) -> u64 {
        match &self.begun {
            Some(begun) => match begun.elapsed(&self.rt) {
                Ok(time) => (time.as_millis() % 1_000_000_000) as u64,
                Err(_) => 0,
            },
            None => 0,
        }
    }
}

// Whether it is of a module that was there at the beginning: one of so many first edits.
fn is_first(news: &News, first: u64) -> bool {
    match news {
        News::Saved { name: _, version } => *version <= first,
        _ => false,
    }
}

impl<R: time::Clock + Drop, S: Sink + Drop> Terminal for Screen<R, S> {
    fn ready(&mut self, alloc: Global, modules: usize) {
        self.first = modules as u64;
        self.is_ready = true;
        let millis = self.millis();
        let wanted = self.manner.wanted;
        let port = self.port.unwrap_or(wanted);
        let line = if self.manner.is_json {
            format!(in alloc;
                "{{\"event\":\"ready\",\"milliseconds\":{millis},\"address\":\"http://127.0.0.1:{port}/\",\"modules\":{modules}}}\n"
            )
        } else if wanted != 0 && wanted != port {
            format!(in alloc;
                "ready in {millis} ms  http://127.0.0.1:{port}/  (port {wanted} is taken)\n"
            )
        } else {
            format!(in alloc; "ready in {millis} ms  http://127.0.0.1:{port}/\n")
        };
        if let Ok(line) = line {
            let _ = write_all(&mut self.out, line.as_bytes());
        }
    }

    fn tell(&mut self, alloc: Global, news: News) {
        if is_first(&news, self.first) {
            return;
        }
        self.say(alloc, &news);
        self.keep(alloc, news);
    }

    fn key(&mut self, alloc: Global) -> Option<Key> {
        let came = self.keys.swap(0, Ordering::SeqCst);
        if came & HELP != 0 {
            self.show_keys();
        }
        if came & STALE != 0 {
            self.show_stale(alloc);
        }
        if came & QUIT != 0 {
            return Some(Key::Quit);
        }
        if came & RELOAD != 0 {
            self.say_reload(alloc);
            return Some(Key::Reload);
        }
        None
    }
}
