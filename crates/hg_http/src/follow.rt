//! Where the requests of a connection end.

ghost use Rattle.std.specs.Prelude.{◌≡◌, ◌≢◌, ℕ, ◌≤◌, true, false, List, [], length, drop, Some};
ghost use Rattle.httparse.specs.Spans.{IsRequestWithin};
ghost use Rattle.http1.specs.declared.conn.Reading.TheVariants.{Done as HasEnded};
ghost use Rattle.hg_http.specs.Following.{AreRequests, Follows, FollowsAt, IsAt, limits_of};

use bytes::BytesMut;
use http_server::MAX_HEADERS;
use http1::fields::KnownFields;
use http1::framing::MethodKind;
use http1::{BodySize, Event, Limits, Server};
use httparse::spans::{EMPTY_HEADER_SPAN, HeaderSpan, RequestSpans};
use std::alloc::Global;

/// Where reading on in a request came to.
#[derive(Clone, Copy, Debug, PartialEq, Eq)]
pub enum RequestEnd {
    /// The request goes on, and its next bytes have to come.
    More,
    /// The request has ended.
    End,
    /// These are no requests, or memory was refused.
    Nothing,
}

/// Reads along with the requests of a connection. Of what came it keeps only what it could not read yet: a part
/// of a head, of a chunk's line or of trailers.
#[derive(Drop)]
pub struct Follower {
    reader: Reader,
    held: BytesMut,
    /// Whether it could not follow.
    is_lost: bool,
}

impl Follower {
    /// At the beginning of a request.
    pub fn new(alloc: Global, limits: Limits) -> Follower
        ensures limits { limits_of result ≡ limits }
        ensures follows { FollowsAt result [] 0 }
    {
        Follower {
            reader: Reader {
                limits,
                server: Server::new(limits),
                is_last: false,
            },
            held: BytesMut::new(alloc),
            is_lost: false,
        }
    }

    /// Whether the answer to the request is to be the last one: it asked for that, or is of an old version, or it
    /// wants no body in its answer.
    pub fn is_last(&self) -> bool {
        self.reader.is_last
    }

    /// Whether the body of a request has begun, and goes on.
    pub fn is_in_body(&self) -> bool {
        !matches!(self.reader.server.unread_size(), BodySize::Empty)
    }

    /// Reads on in the requests, at most up to the end of one. Says how many of the bytes it has read so: all
    /// where the request goes on, and where it cannot follow. It wants memory where bytes end within a head, a
    /// chunk's line or trailers, and for no others.
    pub fn follow(&mut self, bytes: &[u8]) -> (RequestEnd, usize)
        ensures { Follows self.old self.new bytes.now result.0 result.1 }
    {
        if self.is_lost {
            return self.lose(bytes);
        }
        if self.held.is_empty() {
            return self.follow_shown(bytes);
        }
        self.follow_held(bytes)
    }

    /// Reads on where nothing is held.
    fn follow_shown(&mut self, bytes: &[u8]) -> (RequestEnd, usize)
        requires { (self.old.is_lost ≡ false) × (self.old.held.items ≡ []) }
        ensures { Follows self.old self.new bytes.now result.0 result.1 }
    {
        let (found, count) = self.reader.read_on(bytes);
        match found {
            RequestEnd::More => match self.held.extend_from_slice(&bytes[count..]) {
                Ok(()) => (RequestEnd::More, bytes.len()),
                Err(_) => self.lose(bytes),
            },
            RequestEnd::End => {
                self.reader.begin();
                (RequestEnd::End, count)
            }
            RequestEnd::Nothing => self.lose(bytes),
        }
    }

    /// Reads on after what is held.
    fn follow_held(&mut self, bytes: &[u8]) -> (RequestEnd, usize)
        requires { self.old.is_lost ≡ false }
        ensures { Follows self.old self.new bytes.now result.0 result.1 }
    {
        if self.held.extend_from_slice(bytes).is_err() {
            return self.lose(bytes);
        }
        let (found, read) = self.reader.read_on(self.held.as_slice());
        self.held.advance(read);
        match found {
            RequestEnd::More => (RequestEnd::More, bytes.len()),
            RequestEnd::End => match bytes.len().checked_sub(self.held.len()) {
                Some(count) => {
                    self.reader.begin();
                    self.held.clear();
                    (RequestEnd::End, count)
                }
                None => self.lose(bytes),
            },
            RequestEnd::Nothing => self.lose(bytes),
        }
    }

    /// Follows no more, and takes all that comes.
    fn lose(&mut self, bytes: &[u8]) -> (RequestEnd, usize)
        ensures limits { limits_of self.new ≡ limits_of self.old }
        ensures lost { self.new.is_lost ≡ true }
        ensures all { result ≡ (RequestEnd.Nothing, length bytes.now) }
    {
        self.is_lost = true;
        (RequestEnd::Nothing, bytes.len())
    }
}

/// Reads requests.
#[derive(Drop)]
struct Reader {
    limits: Limits,
    server: Server,
    /// Whether the answer to the request is to be the last one.
    is_last: bool,
}

impl Reader {
    /// Begins with the next request.
    fn begin(&mut self)
        ensures limits { self.new.limits ≡ self.old.limits }
        ensures follows { (stream : List ℕ) (count : ℕ) → AreRequests self.old.limits stream count
            → IsAt self.new [] stream count }
    {
        self.server = Server::new(self.limits);
    }

    /// Reads events as long as there are any, and says how many bytes it has read.
    fn read_on(&mut self, bytes: &[u8]) -> (RequestEnd, usize)
        ensures limits { self.new.limits ≡ self.old.limits }
        ensures within { result.1 ≤ length bytes.now }
        ensures at { result.0 ≢ RequestEnd.Nothing → (stream : List ℕ) (count : ℕ)
            → IsAt self.old bytes.now stream count → IsAt self.new (drop result.1 bytes.now) stream count }
        ensures end { result.0 ≡ RequestEnd.End → (stream : List ℕ) (count : ℕ)
            → IsAt self.old bytes.now stream count → self.new.server.reading ≡ HasEnded }
    {
        let mut read = 0;
        'events: for _ in 0..u64::MAX {
            let (found, count) = self.read_event(&bytes[read..]);
            read += count;
            if let Some(found) = found {
                return (found, read);
            }
        }
        (RequestEnd::Nothing, read)
    }

    /// Reads one event, and says how many bytes it has read. There is none where there may be more.
    fn read_event(&mut self, bytes: &[u8]) -> (Option<RequestEnd>, usize)
        ensures limits { self.new.limits ≡ self.old.limits }
        ensures within { result.1 ≤ length bytes.now }
        ensures at { result.0 ≢ Some RequestEnd.Nothing → (stream : List ℕ) (count : ℕ)
            → IsAt self.old bytes.now stream count → IsAt self.new (drop result.1 bytes.now) stream count }
        ensures end { result.0 ≡ Some RequestEnd.End → (stream : List ℕ) (count : ℕ)
            → IsAt self.old bytes.now stream count → self.new.server.reading ≡ HasEnded }
    {
        let mut spans = [EMPTY_HEADER_SPAN; MAX_HEADERS];
        let Ok(read) = self.server.read(bytes, &mut spans) else {
            return (Some(RequestEnd::Nothing), 0);
        };
        let found = match read.event {
            Event::Head(head) => {
                self.is_last = is_last(bytes, &head, &spans);
                None
            }
            Event::Data(_) => None,
            Event::End(_) => Some(RequestEnd::End),
            Event::NeedMore => Some(RequestEnd::More),
            _ => Some(RequestEnd::Nothing),
        };
        (found, read.consumed)
    }
}

/// Whether the answer to a request is to be the last one.
fn is_last(bytes: &[u8], head: &RequestSpans, spans: &[HeaderSpan]) -> bool
    requires { IsRequestWithin bytes.now spans.now head.now }
{
    let fields = KnownFields::from_spans(bytes, &spans[..head.headers]);
    let is_head = matches!(MethodKind::of(head.method.of(bytes)), MethodKind::Head);
    head.version == 0 || fields.close || is_head
}
