//! What only a failing source or sink shows.

use crate::top::replay;
use qe_base::{Bytes, MemorySink, MemorySource, Status};
use std::alloc::AllocGlobal;
use std::process::Abort;
use std::test::Fail;

const SCRIPT: &[u8] =
    b"{\"seed\":\"0000000000000000000000000000000000000000000000000000000000000000\",\"fields\":[{\"path\":\"age\",\"bsonType\":\"int\",\"keyId\":\"00000000-0000-4000-8000-000000000001\",\"key\":\"000102030405060708090a0b0c0d0e0f101112131415161718191a1b1c1d1e1f202122232425262728292a2b2c2d2e2f303132333435363738393a3b3c3d3e3f404142434445464748494a4b4c4d4e4f505152535455565758595a5b5c5d5e5f\",\"query\":\"equality\",\"contention\":0}]}
{\"do\":\"insert\",\"doc\":{\"_id\":1,\"age\":5}}
{\"do\":\"ids\",\"filter\":{\"age\":5}}
{\"do\":\"ids\",\"filter\":{\"age\":6}}
{\"do\":\"insert\",\"doc\":{\"_id\":1,\"age\":7}}
";

const TEXT: &[u8] = b"inserted
ids 1
ids
duplicate
end labels 20 esc 1 ecoc 1 digest 6c4759f0ecb3e436fdd493cde4771954e1fda26151713e0f2749b44306b16b4e
";

const USAGE: &[u8] = b"usage: qerun replay, show, make N SEED, crowd\n";

// Whether a run of the word, where the read calls of these numbers fail and the sink has so much room, ends and writes so.
fn check(
    rt: &(impl Abort + AllocGlobal),
    (word, failing): (&str, &[u8]),
    room: usize,
    (status, text): (Status, &[u8]),
) -> Result<(), Fail> {
    let alloc = rt.alloc();
    let words = vec![in alloc; String::from_str(alloc, word)?]?;
    let mut source = MemorySource::new(
        Bytes::from_slice(alloc, SCRIPT)?,
        Bytes::from_slice(alloc, failing)?,
    );
    let mut sink = MemorySink::new(alloc, room as u64)?;
    let ended = replay(alloc, words.as_slice(), &mut source, &mut sink);
    assert_eq!(rt; ended, status);
    assert_eq!(rt; sink.held(), text);
    Ok(())
}

// With any less room than the text needs, the sink holds as much of it as it has room for.
fn check_fronts(
    rt: &(impl Abort + AllocGlobal),
    run: (&str, &[u8]),
    text: &[u8],
) -> Result<(), Fail> {
    for room in 0..text.len() {
        check(rt, run, room, (Status::WriteFault, &text[..room]))?;
    }
    Ok(())
}

// The first read gives the script, the second its end, and there is no third. Words of no form read nothing.
#[test]
fn a_failing_source_or_sink_decides_the_status(rt: HostRuntime) -> Result<(), Fail> {
    let table: [((&str, &[u8]), (Status, &[u8])); 5] = [
        (("replay", &[]), (Status::Done, TEXT)),
        (("replay", &[0]), (Status::ReadFault, b"")),
        (("replay", &[1]), (Status::ReadFault, b"")),
        (("replay", &[2]), (Status::Done, TEXT)),
        (("again", &[0]), (Status::BadWords, USAGE)),
    ];
    for (run, (status, text)) in table {
        check_fronts(&rt, run, text)?;
        check(&rt, run, text.len(), (status, text))?;
    }
    Ok(())
}
