//! Many heads, and texts of no form.

use super::*;
use sha1::Sha1;

/// A bundle of changesets without parents, with these texts.
fn bundle_of<R: Abort>(rt: &R, alloc: Global, texts: &[Vec<u8>]) -> Vec<u8> {
    let mut group = Vec::new(alloc);
    for text in texts {
        add_chunk(rt, &mut group, text.as_slice());
    }
    let mut ok = group.extend_from_slice(&[0; 12]).is_ok();
    let mut made = Vec::new(alloc);
    ok = ok
        && made
            .extend_from_slice(
                b"HG20\0\0\0\0\0\0\0\x1d\x0bCHANGEGROUP\0\0\0\0\x01\0\x07\x02version02",
            )
            .is_ok()
        && made
            .extend_from_slice(&size_of(group.as_slice()).to_be_bytes())
            .is_ok()
        && made.extend_from_slice(group.as_slice()).is_ok()
        && made.extend_from_slice(&[0; 8]).is_ok();
    assert!(rt; ok);
    made
}

/// How many bytes these are.
fn size_of(bytes: &[u8]) -> u32 {
    u32::try_from(bytes.len()).unwrap_or(u32::MAX)
}

/// The chunk of a changeset without parents.
fn add_chunk<R: Abort>(rt: &R, group: &mut Vec<u8>, text: &[u8]) {
    let mut hasher = Sha1::new();
    hasher.update(&[0; 40]);
    hasher.update(text);
    let node = hasher.finalize();
    let size = size_of(text);
    let ok = group
        .extend_from_slice(&size.saturating_add(116).to_be_bytes())
        .is_ok()
        && group.extend_from_slice(&node).is_ok()
        && group.extend_from_slice(&[0; 60]).is_ok()
        && group.extend_from_slice(&node).is_ok()
        && group.extend_from_slice(&[0; 8]).is_ok()
        && group.extend_from_slice(&size.to_be_bytes()).is_ok()
        && group.extend_from_slice(text).is_ok();
    assert!(rt; ok);
}

fn text_of<R: Abort>(rt: &R, alloc: Global, number: usize, extra: &str) -> Vec<u8> {
    let null = "0000000000000000000000000000000000000000";
    match format!(in alloc; "{null}\nTest <t@e>\n0 0{extra}\n\n{number}") {
        Ok(text) => text.into_bytes(),
        Err(_) => panic!(rt; "no memory"),
    }
}

fn push_of<R: Abort>(rt: &R, alloc: Global, bundle: &[u8]) -> Vec<u8> {
    let length = bundle.len();
    let head = format!(in alloc;
        "POST /?cmd=unbundle HTTP/1.1\r\nhost: a\r\ncontent-type: application/mercurial-0.1\r\n\
         x-hgarg-1: heads=666f726365\r\ncontent-length: {length}\r\n\r\n"
    );
    let mut asked = match head {
        Ok(head) => head.into_bytes(),
        Err(_) => panic!(rt; "no memory"),
    };
    assert!(rt; asked.extend_from_slice(bundle).is_ok());
    asked
}

/// The body of the only answer.
fn body_of(told: &[u8]) -> &[u8] {
    match told
        .windows(4)
        .position(|window| window == b"\r\n\r\n".as_slice())
    {
        Some(at) => told.get(at.saturating_add(4)..).unwrap_or(b""),
        None => b"",
    }
}

fn told_behind<R: RandomSource + Wait + Abort>(
    rt: &R,
    alloc: Global,
    pushed: &[u8],
    asked: &[u8],
) -> Vec<u8> {
    let left = served(rt, alloc, &[pushed, asked], PLAIN);
    assert!(rt; left.end == ConnectionEnd::Done);
    assert_eq!(rt; left.kept, 1);
    left.told
}

#[test]
fn three_hundred_heads_are_told(rt: HostRuntime) {
    let alloc = rt.alloc();
    let mut texts = Vec::new(alloc);
    for number in 0..300usize {
        let branch = match number % 3 {
            0 => "",
            1 => " branch:one",
            _ => " branch:two ; & \u{fc}",
        };
        assert!(rt; texts.push(text_of(&rt, alloc, number, branch)).is_ok());
    }
    let pushed = push_of(
        &rt,
        alloc,
        bundle_of(&rt, alloc, texts.as_slice()).as_slice(),
    );
    let told = told_behind(
        &rt,
        alloc,
        &pushed,
        b"GET /?cmd=heads HTTP/1.1\r\nhost: a\r\n\r\n",
    );
    let heads = body_of(told.as_slice());
    assert!(rt; heads.len() == 300 * 41);
    for number in 1..300usize {
        // in ascending order
        assert!(rt;
            heads[41 * number - 41..41 * number - 1] < heads[41 * number..41 * number + 40]
        );
    }
    let asked = b"GET /?cmd=branchmap HTTP/1.1\r\nhost: a\r\n\r\n";
    let told = told_behind(&rt, alloc, &pushed, asked);
    let map = body_of(told.as_slice());
    assert!(rt; map.starts_with(b"default "));
    let quoted = b"\ntwo%20%3B%20%26%20%C3%BC ".as_slice();
    assert!(rt; map.windows(quoted.len()).any(|window| window == quoted));
    assert_eq!(rt; map.len(), 300 * 41 + 7 + 1 + 3 + 1 + quoted.len() - 2);
}

/// A text needs no form: its branch is then `default`.
#[test]
fn texts_of_no_form_are_taken(rt: HostRuntime) {
    let alloc = rt.alloc();
    let mut texts = Vec::new(alloc);
    let forms: [&[u8]; 6] = [
        b"",
        b"x",
        b"\n\n\n",
        b"\n\n branch:a",
        b"\n\n0 0 branch:b\0close:1\n",
        b"\xff\n\xff\n\xff \xff branch:c\\n\n",
    ];
    for form in &forms {
        match form.to_vec(alloc) {
            Ok(text) => assert!(rt; texts.push(text).is_ok()),
            Err(_) => panic!(rt; "no memory"),
        }
    }
    let pushed = push_of(
        &rt,
        alloc,
        bundle_of(&rt, alloc, texts.as_slice()).as_slice(),
    );
    let asked = b"GET /?cmd=branchmap HTTP/1.1\r\nhost: a\r\n\r\n";
    let told = told_behind(&rt, alloc, &pushed, asked);
    let map = body_of(told.as_slice());
    // of a third line that has no end nothing is read
    assert!(rt; map.starts_with(b"b "), "the branch that is named so");
    let others = b"\ndefault ".as_slice();
    assert!(rt; map.windows(others.len()).any(|window| window == others));
    assert_eq!(rt; map.len(), 6 * 41 + 1 + 4 + 7 + 2);
}

/// Branches whose names hold the bytes 9, 10, 13 and 0, and what else is quoted: each is given on a line of
/// its own.
#[test]
fn branches_of_all_names_are_told(rt: HostRuntime) {
    let alloc = rt.alloc();
    let names = [
        " branch:t\tb",
        " branch:l\\nf",
        " branch:r\\rf",
        " branch:n\\0z",
        " branch:b\\\\s",
        " branch:c:d,e=f/g~h-i_j.k",
    ];
    let mut texts = Vec::new(alloc);
    for (number, name) in names.iter().enumerate() {
        assert!(rt; texts.push(text_of(&rt, alloc, number, *name)).is_ok());
    }
    let bundle = bundle_of(&rt, alloc, texts.as_slice());
    let pushed = push_of(&rt, alloc, bundle.as_slice());
    let asked = b"GET /?cmd=branchmap HTTP/1.1\r\nhost: a\r\n\r\n";
    let told = told_behind(&rt, alloc, &pushed, asked);
    let quoted = [
        "b%5Cs ",
        "c%3Ad%2Ce%3Df/g~h-i_j.k ",
        "l%0Af ",
        "n%00z ",
        "r%0Df ",
        "t%09b ",
    ];
    let lines = body_of(told.as_slice()).split(|byte| *byte == 10);
    let mut count = 0usize;
    for (line, name) in lines.zip(quoted.iter()) {
        assert!(rt; line.starts_with(name.as_bytes()), "{name}");
        assert_eq!(rt; line.len(), name.len() + 40);
        count = count.saturating_add(1);
    }
    assert_eq!(rt; count, 6);
    let feeds = body_of(told.as_slice())
        .iter()
        .filter(|byte| **byte == 10)
        .count();
    assert_eq!(rt; feeds, 5);
}

/// Three hundred heads are asked for again, in thirteen fields that are cut anywhere: each is known.
#[test]
fn three_hundred_ids_are_known(rt: HostRuntime) {
    let alloc = rt.alloc();
    let mut texts = Vec::new(alloc);
    for number in 0..300usize {
        assert!(rt; texts.push(text_of(&rt, alloc, number, "")).is_ok());
    }
    let bundle = bundle_of(&rt, alloc, texts.as_slice());
    let pushed = push_of(&rt, alloc, bundle.as_slice());
    let told = told_behind(
        &rt,
        alloc,
        &pushed,
        b"GET /?cmd=heads HTTP/1.1\r\nhost: a\r\n\r\n",
    );
    let mut arguments = joined(&rt, alloc, &[b"nodes=".as_slice()]);
    for byte in body_of(told.as_slice()) {
        match *byte {
            b' ' => assert!(rt; arguments.push(b'+').is_ok()),
            10 => {}
            digit => assert!(rt; arguments.push(digit).is_ok()),
        }
    }
    let mut asked = joined(
        &rt,
        alloc,
        &[b"GET /?cmd=known HTTP/1.1\r\nhost: a\r\n".as_slice()],
    );
    for (number, piece) in arguments.as_slice().chunks(999).enumerate() {
        let place = number.saturating_add(1);
        match format!(in alloc; "x-hgarg-{place}: ") {
            Ok(name) => {
                let field = joined(&rt, alloc, &[name.as_bytes(), piece, b"\r\n".as_slice()]);
                assert!(rt; asked.extend_from_slice(field.as_slice()).is_ok());
            }
            Err(_) => panic!(rt; "no memory"),
        }
    }
    assert!(rt; asked.extend_from_slice(b"\r\n").is_ok());
    let told = told_behind(&rt, alloc, &pushed, asked.as_slice());
    let known = body_of(told.as_slice());
    assert_eq!(rt; known.len(), 300);
    assert!(rt; known.iter().all(|byte| *byte == b'1'));
}
