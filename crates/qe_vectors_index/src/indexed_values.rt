//! Indexed values, as a Python program stores them.

use qe_base::{Bytes, Duplicate, Ids, NoMemory};
use qe_indexed::{Block, IndexedFault, IndexedValue, make_block, open_block};
use qe_line::{
    Count, Fault, Hex, accepted, bytes_of, counting, print_answer, print_hex, print_line,
};
use qe_tokens::{EdcTwice, ServerDerived};
use std::alloc::Global;

// The int32 5 under the data key 00 to 5f: the sealed value's IV is c0 to cf, the server's IV d0 to df, the block's
// a0 to af and b0 to bf, the count 3 and the contention factor 1.
const EQUALITY: &str = "0e0000000000004000800000000000000110d0d1d2d3d4d5d6d7d8d9dadbdcdddedf\
    360f12b3c4246fddb66ee6df0fae06317d4f5de8e763bd130f3cad1f8b59dd1c5197a7483ade4d469a501625e0b33553\
    4d51a687639b1d19723fa4a885aae44e855e0e9c6e8e708f7a88db15a7259019a0a1a2a3a4a5a6a7a8a9aaabacadaeaf\
    3ffedd1e7f7faf5d1f11c2d1717606af82232a5bd3ed3034df6e47c4e5c9096baa4dada19f00965d43423ee2fca2655b\
    b0b1b2b3b4b5b6b7b8b9babbbcbdbebfe9ee6c31bff91cb857a440bc1314fd49";

// Two blocks behind a server-encrypted value of 16 bytes: the block above, and one of the edge `root` under factor 0
// with the IVs turned round, the count 2^64 - 1 and the factor 7.
const RANGE: &str = "0f0000000000004000800000000000000112020001020304\
    05060708090a0b0c0d0e0fa0a1a2a3a4a5a6a7a8a9aaabacadaeaf3ffedd1e7f7faf5d1f11c2d1717606af82232a5bd3\
    ed3034df6e47c4e5c9096baa4dada19f00965d43423ee2fca2655bb0b1b2b3b4b5b6b7b8b9babbbcbdbebfe9ee6c31bf\
    f91cb857a440bc1314fd49b0b1b2b3b4b5b6b7b8b9babbbcbdbebfc7de7d600af6c5b03fbd75292b0a9e0cab2a5d6fd7\
    9d95b2f07127eb6a3ae9c338fd71256520a996dc54cc5ff5954b5ca0a1a2a3a4a5a6a7a8a9aaabacadaeaf39847757b6\
    1323ed431674dd46343bce";

// The items' tokens: the twice derived one and that of the server, of the int32 5 and of the edge.
const OF_FIVE: (&str, &str) = (
    "f7d131aef5864e99553a94e04225ada6b73697a1be3a5c47255cabe4153277b5",
    "877276e2c0fc052543cb59ce841c4400bba6327e7d856542b1bd34bea3670ef4",
);

const OF_ROOT: (&str, &str) = (
    "7525a02e3857e8d014f5eea2177bde2d4945ee92a457e99b6d9ef814a206b109",
    "5805a14bc97e9e53b43a8d47f6ca0f5735ec08b95bd5ef55fd7ebd5e391d6988",
);

/// Prints values, their blocks and what is refused.
pub fn print(rt: &HostRuntime) -> Result<(), Fault> {
    print_value(rt, &bytes_of::<210>(EQUALITY)?)?;
    print_value(rt, &bytes_of::<227>(RANGE)?)?;
    print_blocks(rt)?;
    print_foreign(rt)?;
    print_refusals(rt)
}

// The parts of a value, and its bytes again.
fn print_value(rt: &HostRuntime, bytes: &[u8]) -> Result<(), Fault> {
    let value = accepted(IndexedValue::read(rt.alloc(), bytes))?;
    print_parts(rt, &value)
}

fn print_parts(rt: &HostRuntime, value: &IndexedValue) -> Result<(), Fault> {
    print_head(rt, value)?;
    print_all_blocks(rt, value)?;
    print_tags(rt, value)?;
    print_written(rt, value)
}

fn print_head(rt: &HostRuntime, value: &IndexedValue) -> Result<(), Fault> {
    let (range, kind) = (value.range, value.value_kind);
    let server_value = value.server_value.slice();
    print_line(
        rt,
        format_args!(
            "indexed: range {range} type {kind} value {}",
            Hex(server_value)
        ),
    )?;
    print_hex(rt, "key id", &value.key_id)
}

fn print_all_blocks(rt: &HostRuntime, value: &IndexedValue) -> Result<(), Fault> {
    for i in 0..value.blocks.len() {
        print_tagged(rt, i, value.block(i), value.tag(i))?;
    }
    Ok(())
}

fn print_tagged(rt: &HostRuntime, i: usize, block: &[u8; 96], tag: &[u8; 32]) -> Result<(), Fault> {
    print_line(
        rt,
        format_args!("block {i}: {} with tag {}", Hex(block), Hex(tag)),
    )
}

fn print_tags(rt: &HostRuntime, value: &IndexedValue) -> Result<(), Fault> {
    let tags = value.tags(rt.alloc())?;
    print_ids(rt, &tags)
}

fn print_ids(rt: &HostRuntime, tags: &Ids) -> Result<(), Fault> {
    for tag in tags.slice() {
        print_hex(rt, "tag", tag)?;
    }
    Ok(())
}

fn print_written(rt: &HostRuntime, value: &IndexedValue) -> Result<(), Fault> {
    let written = written_of(rt.alloc(), value)?;
    print_hex(rt, "written", written.slice())
}

fn written_of(alloc: Global, value: &IndexedValue) -> Result<Bytes, NoMemory> {
    value.copy()?.write(alloc)
}

fn print_blocks(rt: &HostRuntime) -> Result<(), Fault> {
    let ivs = [counting(0xa0), counting(0xb0)];
    print_made(rt, OF_FIVE, 3, 1, &ivs)?;
    print_made(rt, OF_ROOT, u64::MAX, 7, &[ivs[1], ivs[0]])
}

fn print_made(
    rt: &HostRuntime,
    (edc, server): (&str, &str),
    count: u64,
    contention: u64,
    ivs: &[[u8; 16]; 2],
) -> Result<(), Fault> {
    let server = ServerDerived(bytes_of(server)?);
    let block = make_block(count, contention, &EdcTwice(bytes_of(edc)?), &server, ivs);
    print_block(rt, &block, &server)
}

fn print_block(rt: &HostRuntime, block: &[u8; 96], server: &ServerDerived) -> Result<(), Fault> {
    print_hex(rt, "made", &Block(*block).copy()?.0)?;
    let (count, contention, zeros) = open_block(block, server);
    print_line(rt, format_args!("opened: {count} {contention} {zeros}"))
}

// The zeros of another item's block aren't zeros.
fn print_foreign(rt: &HostRuntime) -> Result<(), Fault> {
    let bytes: [u8; 227] = bytes_of(RANGE)?;
    let value = accepted(IndexedValue::read(rt.alloc(), &bytes))?;
    print_zeros(rt, &value)
}

fn print_zeros(rt: &HostRuntime, value: &IndexedValue) -> Result<(), Fault> {
    let server = ServerDerived(bytes_of(OF_ROOT.1)?);
    for block in value.blocks.slice() {
        let (_, _, zeros) = open_block(&block.0, &server);
        print_line(rt, format_args!("zeros: {zeros}"))?;
    }
    Ok(())
}

// A value's first byte, its edge count, and its size.
const REFUSED: [(u8, u8, usize); 14] = [
    (14, 0, 0),
    (0, 0, 1),
    (13, 1, 300),
    (16, 1, 300),
    (14, 0, 129),
    (14, 0, 130),
    (15, 0, 18),
    (15, 0, 19),
    (15, 0, 300),
    (15, 1, 130),
    (15, 1, 131),
    (15, 2, 226),
    (15, 2, 227),
    (15, 2, 300),
];

// The first refusal of a value's first bytes.
fn print_refusals(rt: &HostRuntime) -> Result<(), Fault> {
    for (first, count, size) in REFUSED {
        print_refused(rt, first, count, size)?;
    }
    Ok(())
}

fn print_refused(rt: &HostRuntime, first: u8, count: u8, size: usize) -> Result<(), Fault> {
    let mut bytes = [0; 300];
    bytes[0] = first;
    bytes[18] = count;
    print_read(rt, &bytes[..size.min(300)])
}

fn print_read(rt: &HostRuntime, bytes: &[u8]) -> Result<(), Fault> {
    let size = bytes.len();
    let head = Hex(&bytes[..size.min(19)]);
    print_answer(
        rt,
        format_args!("{size} bytes {head}"),
        blocks_in(rt.alloc(), bytes),
    )
}

fn blocks_in(alloc: Global, bytes: &[u8]) -> Result<Count<'static>, IndexedFault> {
    let value = IndexedValue::read(alloc, bytes)?;
    Ok(Count(value.blocks.len(), "blocks"))
}
