//! Sources and sinks, lists and texts, and the statuses of a run.

use qe_base::{
    Bytes, Duplicate, Failed, FreeGate, Gate, Ids, Listing, MemorySink, MemorySource, NoMemory,
    Status, StdSink, StdSource, TakeFault, Text, Texts, array_at, put_all, take_all,
};
use qe_line::{Fault, Hex, counting, print_hex, print_line, print_shown};
use std::alloc::Global;
use std::fmt;

/// Prints what sources and sinks of memory give and take, and then of the standard streams.
pub fn print(rt: &HostRuntime) -> Result<(), Fault> {
    print_sources(rt)?;
    print_sinks(rt)?;
    print_lists(rt)?;
    print_texts(rt)?;
    print_statuses(rt)?;
    print_streams(rt)
}

// A source's length, and the read calls that fail. A read gives at most 4,096 bytes.
const SOURCES: [(usize, &[u8]); 6] = [
    (0, &[]),
    (1, &[]),
    (4096, &[]),
    (10000, &[9]),
    (10000, &[0]),
    (10000, &[2]),
];

fn print_sources(rt: &HostRuntime) -> Result<(), Fault> {
    for (length, failing) in SOURCES {
        print_source(rt, length, failing)?;
    }
    Ok(())
}

fn print_source(rt: &HostRuntime, length: usize, failing: &[u8]) -> Result<(), Fault> {
    match taken_of(rt.alloc(), length, failing) {
        Ok(taken) => print_shown(rt, format_args!("taken of {length} bytes"), taken),
        Err(fault) => print_line(
            rt,
            format_args!("taken of {length} bytes: {fault:?} at {}", Hex(failing)),
        ),
    }
}

// How many bytes were taken, and how many of them stand where `source_of` puts them.
#[derive(Drop)]
struct Taken {
    bytes: usize,
    kept: usize,
}

impl fmt::Display for Taken {
    fn fmt<W: fmt::Write>(&self, f: &mut fmt::Formatter<W>) -> fmt::Result {
        write!(f, "{}, {} as given", self.bytes, self.kept)
    }
}

fn taken_of(alloc: Global, length: usize, failing: &[u8]) -> Result<Taken, TakeFault> {
    let mut source = source_of(alloc, length, failing)?;
    let bytes = take_all(alloc, &mut source)?;
    Ok(Taken {
        bytes: bytes.len(),
        kept: kept_of(bytes.slice()),
    })
}

fn source_of(alloc: Global, length: usize, failing: &[u8]) -> Result<MemorySource, NoMemory> {
    let bytes = rising(alloc, length)?;
    let failing = Bytes::from_slice(alloc, failing)?;
    Ok(MemorySource::new(bytes, failing))
}

fn rising(alloc: Global, length: usize) -> Result<Bytes, NoMemory> {
    let mut bytes = Bytes::new(alloc);
    for i in 0..length {
        bytes.push((i % 251) as u8)?;
    }
    Ok(bytes)
}

fn kept_of(bytes: &[u8]) -> usize {
    bytes
        .iter()
        .enumerate()
        .filter(|(i, b)| **b == (*i % 251) as u8)
        .count()
}

// A failed put leaves what there was room for.
fn print_sinks(rt: &HostRuntime) -> Result<(), Fault> {
    for room in 0..8 {
        let mut sink = MemorySink::new(rt.alloc(), room)?;
        print_put(rt, room, &mut sink)?;
    }
    Ok(())
}

fn print_put(rt: &HostRuntime, room: u64, sink: &mut MemorySink) -> Result<(), Fault> {
    match put_all(sink, b"prefix") {
        Ok(()) => print_held(rt, room, sink.held()),
        Err(fault) => print_part(rt, room, sink.held(), fault),
    }
}

fn print_held(rt: &HostRuntime, room: u64, held: &[u8]) -> Result<(), Fault> {
    print_line(rt, format_args!("put into room {room}: [{}]", Hex(held)))
}

fn print_part(rt: &HostRuntime, room: u64, held: &[u8], fault: Failed) -> Result<(), Fault> {
    print_line(
        rt,
        format_args!("put into room {room}: [{}] {fault:?}", Hex(held)),
    )
}

fn print_lists(rt: &HostRuntime) -> Result<(), Fault> {
    let ids = ids_of(rt.alloc())?;
    print_ids(rt, &ids)?;
    let part: [u8; 4] = array_at(&counting::<8>(0), 2);
    print_hex(rt, "4 bytes from place 2", &part)
}

fn print_ids(rt: &HostRuntime, ids: &Ids) -> Result<(), Fault> {
    for id in ids.slice() {
        print_hex(rt, "id", id)?;
    }
    print_copied(rt, ids)
}

fn print_copied(rt: &HostRuntime, ids: &Ids) -> Result<(), Fault> {
    let copied = ids.copy()?.into_vec();
    print_line(rt, format_args!("ids: {} {}", ids.len(), copied.len()))
}

fn ids_of(alloc: Global) -> Result<Ids, NoMemory> {
    let mut ids = Ids::new(alloc);
    if ids.is_empty() {
        ids.push([7; 32])?;
    }
    ids.extend(&[[8; 32], [9; 32]])?;
    Ok(ids)
}

fn print_texts(rt: &HostRuntime) -> Result<(), Fault> {
    let texts = texts_of(rt.alloc())?;
    print_each_text(rt, &texts)?;
    print_shown(rt, "number", 9u64.copy()?)
}

fn texts_of(alloc: Global) -> Result<Texts, NoMemory> {
    let text = Text::of(alloc, "age")?;
    let mut texts: Texts = Listing::from_vec(alloc, Vec::new(alloc));
    texts.push(text)?;
    texts.copy()
}

fn print_each_text(rt: &HostRuntime, texts: &Texts) -> Result<(), Fault> {
    for text in texts.slice() {
        print_shown(rt, "text", text.as_str())?;
    }
    Ok(())
}

fn print_statuses(rt: &HostRuntime) -> Result<(), Fault> {
    for status in [
        Status::Done,
        Status::ReadFault,
        Status::WriteFault,
        Status::Clash,
        Status::BadScript,
        Status::ScriptTooLong,
        Status::NoMemory,
        Status::BadWords,
    ] {
        print_line(rt, format_args!("{status:?}: {}", status.code()))?;
    }
    Ok(())
}

// The standard input is `stdin`; a gate lets through.
fn print_streams(rt: &HostRuntime) -> Result<(), Fault> {
    FreeGate.before(0, 0);
    FreeGate.answered(0, 0);
    let bytes = take_all(rt.alloc(), &mut StdSource::new(rt))?;
    put_all(&mut StdSink::new(rt), bytes.slice())?;
    Ok(())
}
