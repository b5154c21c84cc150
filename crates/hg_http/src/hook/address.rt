//! Where a hook is asked.

/// Where a hook is asked: `http://HOST:PORT/PATH`.
#[derive(Clone, Copy, Debug, PartialEq, Eq)]
pub struct HookAddress<'a> {
    /// The host and its port, with a colon between them.
    pub authority: &'a str,
    /// The path, which begins with a slash, and a query where there is one.
    pub path: &'a str,
}

impl<'a> HookAddress<'a> {
    /// Reads a URL. `None` where it is not of that form.
    pub fn parse(url: &'a str) -> Option<HookAddress<'a>> {
        let rest = url.strip_prefix("http://")?;
        let (authority, path) = match rest.find('/') {
            Some(at) => rest.split_at_checked(at)?,
            None => (rest, "/"),
        };
        let (host, port) = authority.rsplit_once(':')?;
        let is_address = is_graphic(authority) && !host.is_empty() && is_port(port);
        if !is_address || !is_graphic(path) || path.contains('#') {
            return None;
        }
        Some(HookAddress { authority, path })
    }
}

/// Whether all of it can be seen.
fn is_graphic(text: &str) -> bool {
    text.as_bytes().iter().all(|byte| byte.is_ascii_graphic())
}

fn is_port(text: &str) -> bool {
    match text.parse::<u16>() {
        Ok(port) => port > 0,
        Err(_) => false,
    }
}
