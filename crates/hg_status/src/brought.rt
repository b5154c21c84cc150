//! How many changesets a bundle brings.

ghost use Rattle.std.specs.Prelude.{◌≡◌, ◌≤◌, ◌<◌, length, take, drop, not, false, ◌&&◌, if◌then◌else◌};
ghost use Rattle.hg_status.specs.Brought.{after_payload, after_sized, changesets_in, changesets_of, sized_in};
ghost use Rattle.hg_status.specs.Brought.{fed, fed_where, is_changegroup, new_group, with_byte, with_size};
ghost use Rattle.hg_status.specs.Brought.{next_bytes, next_payload, number_in, size_of};

/// The first bytes, so many or all that there are, and the bytes after them.
fn split(bytes: &[u8], count: usize) -> (&[u8], &[u8])
    ensures first { result.0.now ≡ take count bytes.now }
    ensures after { result.1.now ≡ drop count bytes.now }
{
    bytes.split_at(count.min(bytes.len()))
}

/// The number that the first four bytes are, and the bytes after it: 0, and no bytes, where there are fewer.
fn read_number(bytes: &[u8]) -> (u32, &[u8])
    ensures number { result.0 ≡ number_in bytes.now }
    ensures after { result.1.now ≡ drop 4 bytes.now }
{
    match bytes.split_first_chunk::<4>() {
        Some((number, after)) => (u32::from_be_bytes(*number), after),
        None => (0, &[]),
    }
}

/// How many bytes a number says that follow: those of a chunk or a header, where it is below 2^31.
fn size(number: u32) -> usize
    ensures { result ≡ size_of number }
{
    if number < 0x8000_0000 {
        number as usize
    } else {
        0
    }
}

/// The bytes after a size at the front, so many or all that there are, and the bytes after them.
fn read_sized(bytes: &[u8]) -> (&[u8], &[u8])
    ensures first { result.0.now ≡ sized_in bytes.now }
    ensures after { result.1.now ≡ after_sized bytes.now }
{
    let (number, after) = read_number(bytes);
    split(after, size(number))
}

/// The bytes of the next size that came.
#[derive(Clone, Copy)]
enum Came {
    Nothing,
    One(u8),
    Two(u8, u8),
    Three(u8, u8, u8),
}

/// The first group of a changegroup, which has its changesets, as its bytes come: of each chunk a number of four
/// bytes, the chunk's length with itself, and then the chunk.
#[derive(Clone, Copy)]
struct Group {
    count: u64,
    /// What came of the next number.
    came: Came,
    /// How many bytes of a chunk are still to come.
    left: usize,
    is_over: bool,
}

impl Group {
    fn new() -> Group
        ensures { result ≡ new_group }
    {
        Group {
            count: 0,
            came: Came::Nothing,
            left: 0,
            is_over: false,
        }
    }

    /// The group after these bytes.
    fn feed(self, bytes: &[u8]) -> Group
        ensures { result ≡ fed self bytes.now }
    {
        let mut group = self;
        let mut rest = bytes;
        'feeding: while !rest.is_empty() {
            let (next, after) = group.step(rest);
            group = next;
            rest = after;
        }
        group
    }

    /// The group after some of these bytes, and the bytes after those: all of them once the group is over, those of
    /// a chunk together, and one of a number.
    fn step(self, bytes: &[u8]) -> (Group, &[u8])
        requires { 0 < length bytes.now }
        ensures fed { fed result.0 result.1.now ≡ fed self bytes.now }
        ensures shorter { length result.1.now < length bytes.now }
    {
        if self.is_over {
            return (self, &[]);
        }
        if self.left > 0 {
            let skipped = self.left.min(bytes.len());
            let left = self.left - skipped;
            return (Group { left, ..self }, &bytes[skipped..]);
        }
        (self.with_byte(bytes[0]), &bytes[1..])
    }

    /// The group after one byte of a number.
    fn with_byte(self, byte: u8) -> Group
        ensures { result ≡ with_byte self self.came byte }
    {
        let came = match self.came {
            Came::Nothing => Came::One(byte),
            Came::One(a) => Came::Two(a, byte),
            Came::Two(a, b) => Came::Three(a, b, byte),
            Came::Three(a, b, c) => return self.with_size(u32::from_be_bytes([a, b, c, byte])),
        };
        Group { came, ..self }
    }

    /// The group after a number. One that is no longer than itself ends the group.
    fn with_size(self, number: u32) -> Group
        ensures { result ≡ with_size self number }
    {
        let came = Came::Nothing;
        if number <= 4 {
            return Group {
                came,
                is_over: true,
                ..self
            };
        }
        Group {
            count: self.count.saturating_add(1),
            came,
            left: (number - 4) as usize,
            ..self
        }
    }
}

/// The payload of a part, as it is looked at.
#[derive(Clone, Copy)]
struct Payload {
    group: Group,
    /// Whether this is inside of a part that interrupts it, whose chunks do not count.
    is_inside: bool,
}

impl Payload {
    /// The payload after the next size and what follows it, and the bytes after that. None where it ends.
    fn next(self, counts: bool, bytes: &[u8]) -> (Option<Payload>, &[u8])
        ensures payload { result.0 ≡ next_payload counts self bytes.now }
        ensures after { result.1.now ≡ next_bytes bytes.now }
    {
        let (number, after) = read_number(bytes);
        if number == u32::MAX {
            let (_, after) = read_sized(after);
            let payload = Payload {
                is_inside: true,
                ..self
            };
            return (Some(payload), after);
        }
        let (chunk, after) = split(after, size(number));
        if number == 0 {
            return (self.end(), after);
        }
        (Some(self.with_chunk(counts, chunk)), after)
    }

    /// The payload after a size of 0, which ends a part that interrupts it, or the payload.
    fn end(self) -> Option<Payload>
        ensures { result ≡ (if self.is_inside then Some (record self { is_inside = false }) else None) }
    {
        if !self.is_inside {
            return None;
        }
        Some(Payload {
            is_inside: false,
            ..self
        })
    }

    /// The payload after a chunk.
    fn with_chunk(self, counts: bool, chunk: &[u8]) -> Payload
        ensures { result ≡ record self { group = fed_where (counts && not self.is_inside) self.group chunk.now } }
    {
        if !counts || self.is_inside {
            return self;
        }
        Payload {
            group: self.group.feed(chunk),
            ..self
        }
    }
}

/// How many changesets the payload of a part has, and the bytes after it. Parts that interrupt it have none.
fn read_payload(bytes: &[u8], counts: bool) -> (u64, &[u8])
    ensures count { result.0 ≡ changesets_of counts bytes.now }
    ensures after { result.1.now ≡ after_payload counts bytes.now }
{
    let mut payload = Payload {
        group: Group::new(),
        is_inside: false,
    };
    let mut rest = bytes;
    'chunks: for _step in 0..bytes.len() {
        let (next, after) = payload.next(counts, rest);
        let Some(next) = next else {
            return (payload.group.count, after);
        };
        payload = next;
        rest = after;
    }
    (payload.group.count, rest)
}

/// Whether a header is that of a changegroup: its first byte is the length of the type, which follows.
fn is_changegroup(header: &[u8]) -> bool
    ensures { result ≡ is_changegroup header.now }
{
    match header.split_first() {
        Some((length, after)) => {
            let (kind, _) = split(after, usize::from(*length));
            kind.eq_ignore_ascii_case(b"changegroup")
        }
        None => false,
    }
}

/// How many changesets the changegroups of a bundle have, also those that were there before. Any bytes have some
/// number of them.
pub fn brought_by(bundle: &[u8]) -> u64
    ensures { result ≡ changesets_in bundle.now }
{
    let (_, after) = split(bundle, 4);
    let (_, mut rest) = read_sized(after);
    let mut count = 0u64;
    'parts: for _step in 0..bundle.len() {
        let (header, after) = read_sized(rest);
        if header.is_empty() {
            break;
        }
        let (more, after) = read_payload(after, is_changegroup(header));
        count = count.saturating_add(more);
        rest = after;
    }
    count
}
