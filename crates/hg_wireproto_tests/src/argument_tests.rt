//! Arguments as a client of Mercurial 6.3 sends them, arguments of no form, and memory refused in turn.

use hg_types::{NoMemory, Seq};
use hg_wireproto::*;
use linked_list_allocator::LocalHeap;
use std::alloc::Allocator;
use std::test::*;

/// The value of a header of a client: two commands in one.
const BATCH: &[u8] = b"cmds=heads+%3Bknown+nodes%3D30b653f69f5c5d07bc0bd38d172d2c1224b7be72";

/// What it stands for.
const COMMANDS: &[u8] = b"heads ;known nodes=30b653f69f5c5d07bc0bd38d172d2c1224b7be72";

fn is_value<A: Allocator>(fields: &[Field<A>], name: &[u8], wanted: &[u8]) -> bool {
    value_of(fields, name).is_some_and(|value| value == wanted)
}

#[test]
fn arguments_of_a_client(rt: HostRuntime) -> Result<(), Fail> {
    let form = read_form(rt.alloc(), BATCH)?;
    assert!(rt; is_value(form.as_slice(), b"cmds", COMMANDS));
    let form = read_form(rt.alloc(), b"namespace=phases")?;
    assert!(rt; is_value(form.as_slice(), b"namespace", b"phases"));
    let form = read_form(rt.alloc(), b"cmd=capabilities")?;
    assert!(rt; is_value(form.as_slice(), b"cmd", b"capabilities"));
    forms_are_read_back::<std::alloc::Global>();
    Ok(())
}

#[test]
fn arguments_of_any_form(rt: HostRuntime) -> Result<(), Fail> {
    let form = read_form(
        rt.alloc(),
        b"a=1&b&&=x&a=2&c=%zz%4&d=%41+%2b%00&e=f=g&h=%26%3D%C3%BC",
    )?;
    let fields = form.as_slice();
    assert_eq!(rt; fields.len(), 8);
    assert!(rt; is_value(fields, b"a", b"2"));
    assert!(rt; is_value(fields, b"b", b""));
    assert!(rt; is_value(fields, b"", b"x"));
    assert!(rt; is_value(fields, b"c", b"%zz%4"));
    assert!(rt; is_value(fields, b"d", b"A +\0"));
    assert!(rt; is_value(fields, b"e", b"f=g"));
    assert!(rt; is_value(fields, b"h", b"&=\xC3\xBC"));
    assert!(rt; value_of(fields, b"i").is_none());
    assert!(rt; read_form(rt.alloc(), b"")?.is_empty());
    assert!(rt; read_form(rt.alloc(), b"&&")?.is_empty());
    Ok(())
}

#[test]
fn a_batch_of_a_client(rt: HostRuntime) -> Result<(), Fail> {
    let batch = read_batch(rt.alloc(), COMMANDS)?;
    let commands = batch.as_slice();
    assert_eq!(rt; commands.len(), 2);
    assert!(rt; commands[0].name.as_slice() == b"heads".as_slice());
    assert!(rt; commands[0].arguments.is_empty());
    assert!(rt; commands[1].name.as_slice() == b"known".as_slice());
    assert!(rt;
        is_value(
            commands[1].arguments.as_slice(),
            b"nodes",
            b"30b653f69f5c5d07bc0bd38d172d2c1224b7be72"
        )
    );
    Ok(())
}

#[test]
fn a_batch_of_any_form(rt: HostRuntime) -> Result<(), Fail> {
    let batch = read_batch(rt.alloc(), b"lookup key=:c:o:s:e:x::e:,k:e=v,,k:e=w;;x")?;
    let commands = batch.as_slice();
    assert_eq!(rt; commands.len(), 3);
    let arguments = commands[0].arguments.as_slice();
    assert_eq!(rt; arguments.len(), 3);
    assert!(rt; is_value(arguments, b"key", b":,;=:x:=:"));
    assert!(rt; is_value(arguments, b"k=", b"w"));
    assert!(rt; commands[1].name.is_empty() && commands[1].arguments.is_empty());
    assert!(rt; commands[2].name.as_slice() == b"x".as_slice());
    assert_eq!(rt; read_batch(rt.alloc(), b"")?.len(), 1);
    Ok(())
}

fn answers<A: Allocator + Copy>(alloc: A, texts: &[&[u8]]) -> Result<Seq<u8, A>, NoMemory> {
    let mut answers = Seq::new(alloc);
    for text in texts {
        answers.push(Seq::copy_of(alloc, text)?)?;
    }
    joined_answers(alloc, answers.as_slice())
}

#[test]
fn answers_of_a_batch(rt: HostRuntime) -> Result<(), Fail> {
    assert!(rt; answers(rt.alloc(), &[])?.is_empty());
    assert!(rt; answers(rt.alloc(), &[b""])?.is_empty());
    assert!(rt; answers(rt.alloc(), &[b"0\n", b"1"])?.as_slice() == b"0\n;1".as_slice());
    assert!(rt;
        answers(rt.alloc(), &[b":a,b;c=d", b"", b"="])?.as_slice() == b":ca:ob:sc:ed;;:e".as_slice()
    );
    escapes_are_read_back();
    Ok(())
}

fn read_all<A: Allocator + Copy>(alloc: A) -> Result<(), NoMemory> {
    let form = read_form(alloc, BATCH)?;
    let commands = value_of(form.as_slice(), b"cmds").unwrap_or(b"".as_slice());
    let batch = read_batch(alloc, commands)?;
    drop(batch);
    drop(form);
    drop(answers(alloc, &[b":a,b;c=d", b"1"])?);
    Ok(())
}

/// Over heaps of each multiple of 16 bytes, so that each growth is refused in turn.
#[test]
fn each_growth_of_arguments_refused(rt: HostRuntime) -> Result<(), Fail> {
    let (mut refused, mut done) = (0u32, 0u32);
    for sixteens in 1..100usize {
        let heap = LocalHeap::new(rt.alloc(), sixteens * 16)?;
        if read_all(&heap).is_ok() {
            done = done.saturating_add(1);
        } else {
            refused = refused.saturating_add(1);
        }
    }
    assert!(rt; refused > 0 && done > 0);
    Ok(())
}
