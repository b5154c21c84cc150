//! Commands by their names, and the push that sets one key, as Mercurial 6.3 writes it.

use hg_http::*;
use hg_wireproto::read_form;
use std::test::*;

/// What Mercurial's `bundle2.bundle20` writes for a mandatory part `replycaps` without content and an
/// advisory part `pushkey` with these four parameters.
const PUBLISHED: [&[u8]; 4] = [
    b"HG20\0\0\0\0\0\0\0\x10\tREPLYCAPS\0\0\0\0\0\0\0\0\0\0",
    b"\0\0\0X\x07pushkey\0\0\0\x01\x04\0\t\x06\x03(\x03\x01\x03\x01",
    b"namespacephaseskeyb80de5d138758541c5f05265ad144ab9fa86d1dbold1new0",
    b"\0\0\0\0\0\0\0\0",
];

// The names of Mercurial's commands that are answered, `changegroup`, `Heads` and nothing. Result: the
// command of each name, and none for the last three.
#[test]
fn commands_by_their_names(rt: HostRuntime) {
    let read = [
        (b"heads".as_slice(), Read::Heads, b"".as_slice()),
        (b"known", Read::Known, b"nodes"),
        (b"listkeys", Read::ListKeys, b"namespace"),
        (b"lookup", Read::Lookup, b"key"),
        (b"branchmap", Read::BranchMap, b""),
    ];
    for (name, command, subject) in read {
        assert!(rt;
            command_of(name) == Some(Command::ReadOnly(command)) && read_of(name) == Some(command)
        );
        assert!(rt; subject_of(command) == subject);
    }
    let others = [
        (b"capabilities".as_slice(), Command::Capabilities),
        (b"batch", Command::Batch),
        (b"unbundle", Command::Unbundle),
        (b"pushkey", Command::PushKey),
        (b"getbundle", Command::GetBundle),
    ];
    for (name, command) in others {
        assert!(rt; command_of(name) == Some(command) && read_of(name).is_none());
    }
    for name in [b"changegroup".as_slice(), b"Heads", b""] {
        assert!(rt; command_of(name).is_none());
    }
}

// The arguments of `pushkey` that publish a draft, of which `old` is there twice. Result: the later one
// counts, what is not there is empty, and the bundle is the one that Mercurial writes.
#[test]
fn a_key_that_is_set(rt: HostRuntime) -> Result<(), Fail> {
    let form = b"namespace=phases&key=b80de5d138758541c5f05265ad144ab9fa86d1db&old=2&new=0&old=1";
    let fields = read_form(rt.alloc(), form)?;
    let change = read_change(fields.as_slice());
    assert!(rt; argument(fields.as_slice(), b"old") == b"1".as_slice());
    assert!(rt; argument(fields.as_slice(), b"OLD").is_empty());
    assert!(rt; change.namespace == b"phases".as_slice() && change.new == b"0".as_slice());
    assert!(rt; fits(&change));
    if fits(&change) {
        let bundle = key_bundle(rt.alloc(), &change)?;
        let mut wanted = Vec::new(rt.alloc());
        for piece in PUBLISHED {
            wanted.extend_from_slice(piece)?;
        }
        assert_eq!(rt; bundle.as_slice(), wanted.as_slice());
    }
    Ok(())
}

// A value of 255 bytes, and one of 256. Result: a header's parameter can hold the first alone.
#[test]
fn the_longest_value(rt: HostRuntime) {
    let value = [b'x'; 256];
    let short = KeyChange {
        namespace: b"bookmarks",
        key: &value[..255],
        old: b"",
        new: b"",
    };
    assert!(rt;
        fits(&short)
            && !fits(&KeyChange {
                key: &value,
                ..short
            })
    );
}

// Each refusal. Result: a line, and no two the same.
#[test]
fn lines_of_refusals(rt: HostRuntime) {
    let refusals = [
        RequestRefusal::NotForced,
        RequestRefusal::BadBatch,
        RequestRefusal::PushesAlone,
        RequestRefusal::NotOpened,
        RequestRefusal::NoMemory,
        RequestRefusal::NoAnswer,
        RequestRefusal::LongBatch,
    ];
    for refusal in refusals {
        assert!(rt; refusal.text().ends_with(b"\n".as_slice()));
        let same = refusals
            .iter()
            .filter(|other| other.text() == refusal.text())
            .count();
        assert!(rt; same == 1);
    }
}
