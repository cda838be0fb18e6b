//! Payloads of inserts, as another program writes them.

ghost use Rattle.std.specs.Prelude.{◌≡◌};
ghost use Rattle.qe_insert.specs.Insert.{FewEdges};
ghost use Rattle.qe_parts.specs.Carried.{extra_names, picked};

use qe_base::{Bytes, NoMemory};
use qe_document::{BsonFault, BsonKind, Document, Value};
use qe_line::{Fault, Hex, accepted, print_hex, print_line};
use qe_parts::put;
use qe_payload::{
    Cipher, EdgeList, EdgeTokens, InsertPayload, Kind, Malformed, read_insert, write_insert,
};
use std::alloc::Global;

// An equality payload of an int32.
const WRITTEN: &str =
    "0b5f01000005640020000000001111111111111111111111111111111111111111111111111111111111111111057300\
    200000000022222222222222222222222222222222222222222222222222222222222222220570003000000000333333\
    333333333333333333333333333333333333333333333333333333333333333333333333333333333333333333057500\
    100000000444444444444444444444444444444444107400100000000576005000000000555555555555555555555555\
    555555555555555555555555555555555555555555555555555555555555555555555555555555555555555555555555\
    555555555555555555555555555555555555555505650020000000006666666666666666666666666666666666666666\
    666666666666666666666666056c00200000000077777777777777777777777777777777777777777777777777777777\
    77777777126b00050000000000000000";

// Its elements from the last to the first.
const REVERSED: &str =
    "0b5f010000126b000500000000000000056c002000000000777777777777777777777777777777777777777777777777\
    777777777777777705650020000000006666666666666666666666666666666666666666666666666666666666666666\
    057600500000000055555555555555555555555555555555555555555555555555555555555555555555555555555555\
    555555555555555555555555555555555555555555555555555555555555555555555555555555551074001000000005\
    750010000000044444444444444444444444444444444405700030000000003333333333333333333333333333333333\
    333333333333333333333333333333333333333333333333333333333333330573002000000000222222222222222222\
    222222222222222222222222222222222222222222222205640020000000001111111111111111111111111111111111\
    11111111111111111111111111111100";

// A payload with two edges, `sp` and `mx`.
const OF_A_RANGE: &str =
    "0beb02000005640020000000001111111111111111111111111111111111111111111111111111111111111111057300\
    200000000022222222222222222222222222222222222222222222222222222222222222220570003000000000333333\
    333333333333333333333333333333333333333333333333333333333333333333333333333333333333333333057500\
    100000000444444444444444444444444444444444107400100000000576005000000000555555555555555555555555\
    555555555555555555555555555555555555555555555555555555555555555555555555555555555555555555555555\
    555555555555555555555555555555555555555505650020000000006666666666666666666666666666666666666666\
    666666666666666666666666056c00200000000077777777777777777777777777777777777777777777777777777777\
    77777777126b00050000000000000004670075010000033000b50000000564002000000000aaaaaaaaaaaaaaaaaaaaaa\
    aaaaaaaaaaaaaaaaaaaaaaaaaaaaaaaaaaaaaaaaaa0573002000000000bbbbbbbbbbbbbbbbbbbbbbbbbbbbbbbbbbbbbb\
    bbbbbbbbbbbbbbbbbbbbbbbbbb056c002000000000cccccccccccccccccccccccccccccccccccccccccccccccccccccc\
    cccccccccc0570003000000000dddddddddddddddddddddddddddddddddddddddddddddddddddddddddddddddddddddd\
    dddddddddddddddddddddddddd00033100b50000000564002000000000aaaaaaaaaaaaaaaaaaaaaaaaaaaaaaaaaaaaaa\
    aaaaaaaaaaaaaaaaaaaaaaaaaa0573002000000000bbbbbbbbbbbbbbbbbbbbbbbbbbbbbbbbbbbbbbbbbbbbbbbbbbbbbb\
    bbbbbbbbbb056c002000000000cccccccccccccccccccccccccccccccccccccccccccccccccccccccccccccccc057000\
    3000000000dddddddddddddddddddddddddddddddddddddddddddddddddddddddddddddddddddddddddddddddddddddd\
    dddddddddd0000127370000200000000000000106d78000700000000";

// An array `g` of 66 nulls.
const EDGES_66: &str =
    "0b0b010000046700030100000a30000a31000a32000a33000a34000a35000a36000a37000a38000a39000a3130000a31\
    31000a3132000a3133000a3134000a3135000a3136000a3137000a3138000a3139000a3230000a3231000a3232000a32\
    33000a3234000a3235000a3236000a3237000a3238000a3239000a3330000a3331000a3332000a3333000a3334000a33\
    35000a3336000a3337000a3338000a3339000a3430000a3431000a3432000a3433000a3434000a3435000a3436000a34\
    37000a3438000a3439000a3530000a3531000a3532000a3533000a3534000a3535000a3536000a3537000a3538000a35\
    39000a3630000a3631000a3632000a3633000a3634000a3635000000";

// Payloads with a `p` of 47, 49 and 50 bytes at the top, and of 49 and 50 in an edge.
const CIPHERS: [&str; 5] = [
    "0b3c0000000570002f00000000dddddddddddddddddddddddddddddddddddddddddddddddddddddddddddddddddddddd\
    dddddddddddddddddddddddd00",
    "0b3e0000000570003100000000dddddddddddddddddddddddddddddddddddddddddddddddddddddddddddddddddddddd\
    dddddddddddddddddddddddddddd00",
    "0b3f0000000570003200000000dddddddddddddddddddddddddddddddddddddddddddddddddddddddddddddddddddddd\
    dddddddddddddddddddddddddddddd00",
    "0b4e000000046700460000000330003e0000000570003100000000dddddddddddddddddddddddddddddddddddddddddd\
    dddddddddddddddddddddddddddddddddddddddddddddddddddddddd000000",
    "0b4f000000046700470000000330003f0000000570003200000000dddddddddddddddddddddddddddddddddddddddddd\
    dddddddddddddddddddddddddddddddddddddddddddddddddddddddddd000000",
];

// Payloads that are refused.
const REFUSED: [&str; 12] = [
    "0c0500000000",
    "0b0500000000",
    "0b080000000a780000",
    "0b2c0000000564001f000000001111111111111111111111111111111111111111111111111111111111111100",
    "0b1d00000005750010000000004444444444444444444444444444444400",
    "0b10000000126b00ffffffffffffffff00",
    "0b10000000127400010000000000000000",
    "0b0d000000046700050000000000",
    EDGES_66,
    "0b080000000a670000",
    "0b1800000004670010000000033000080000000a6400000000",
    "0b150000000467000d00000003300005000000000000",
];

const EDGE: EdgeTokens = EdgeTokens {
    d: [0xaa; 32],
    s: [0xbb; 32],
    l: [0xcc; 32],
    p: Cipher::Old([0xdd; 48]),
};

/// Prints what is read, written and refused.
pub fn print(rt: &HostRuntime) -> Result<(), Fault> {
    print_all(rt, &[WRITTEN, REVERSED, OF_A_RANGE])?;
    print_written(rt)?;
    print_refusals(rt)?;
    print_cuts(rt)
}

fn print_written(rt: &HostRuntime) -> Result<(), Fault> {
    let equality = equality_of(rt.alloc())?;
    print_hex(rt, "insert of an equality", equality.slice())?;
    print_range(rt)
}

fn print_range(rt: &HostRuntime) -> Result<(), Fault> {
    let range = range_of(rt.alloc())?;
    print_hex(rt, "insert of a range", range.slice())
}

fn print_read(rt: &HostRuntime, digits: &str) -> Result<(), Fault> {
    let blob = hex::decode(rt.alloc(), digits)?;
    print_blob(rt, digits, blob.as_slice())
}

fn print_blob(rt: &HostRuntime, digits: &str, blob: &[u8]) -> Result<(), Fault> {
    match read_insert(rt.alloc(), blob) {
        Ok(payload) => print_payload(rt, &payload),
        Err(fault) => print_malformed(rt, "insert", digits, &fault),
    }
}

fn print_payload(rt: &HostRuntime, payload: &InsertPayload) -> Result<(), Fault> {
    print_tokens(rt, payload)?;
    print_ciphers(rt, payload)?;
    if let Some(edges) = &payload.g {
        print_edges(rt, edges)?;
    }
    print_carried(rt, &payload.extra)
}

fn print_tokens(rt: &HostRuntime, payload: &InsertPayload) -> Result<(), Fault> {
    print_named(rt, "d", &payload.d)?;
    print_named(rt, "s", &payload.s)?;
    print_named(rt, "e", &payload.e)?;
    print_named(rt, "l", &payload.l)
}

fn print_named(rt: &HostRuntime, name: &str, bytes: &[u8]) -> Result<(), Fault> {
    print_line(rt, format_args!("{name} {}", Hex(bytes)))
}

fn print_ciphers(rt: &HostRuntime, payload: &InsertPayload) -> Result<(), Fault> {
    print_line(
        rt,
        format_args!("p {} u {}", Hex(payload.p.bytes()), Hex(&payload.u)),
    )?;
    print_line(
        rt,
        format_args!(
            "t {} k {} v {}",
            payload.t,
            payload.k,
            Hex(payload.v.slice())
        ),
    )
}

fn print_edges(rt: &HostRuntime, edges: &EdgeList) -> Result<(), Fault> {
    for edge in edges.slice() {
        print_edge(rt, edge)?;
    }
    Ok(())
}

fn print_edge(rt: &HostRuntime, edge: &EdgeTokens) -> Result<(), Fault> {
    print_line(
        rt,
        format_args!("edge d {} s {}", Hex(&edge.d), Hex(&edge.s)),
    )?;
    print_line(
        rt,
        format_args!("edge l {} p {}", Hex(&edge.l), Hex(edge.p.bytes())),
    )
}

/// Prints the names of what is carried.
pub fn print_carried(rt: &HostRuntime, extra: &Document) -> Result<(), Fault> {
    for i in 0..extra.len() {
        print_line(rt, format_args!("carried {}", extra.name(i)))?;
    }
    Ok(())
}

/// Prints a refusal and its path.
pub fn print_malformed(
    rt: &HostRuntime,
    what: &str,
    digits: &str,
    fault: &Malformed,
) -> Result<(), Fault> {
    match fault {
        Malformed::At { path, kind } => print_line(
            rt,
            format_args!("{what} {digits}: {} {kind:?}", path.as_str()),
        ),
        Malformed::NoMemory => Err(Fault::NoMemory),
    }
}

fn equality_of(alloc: Global) -> Result<Bytes, Fault> {
    written_of(alloc, None, Document::new(alloc))
}

fn range_of(alloc: Global) -> Result<Bytes, Fault> {
    let edges = EdgeList::from_slice(alloc, &[EDGE, EDGE])?;
    let mut extra = Document::new(alloc);
    put(alloc, &mut extra, "sp", Value::Int64(2))?;
    put(alloc, &mut extra, "mx", Value::Int32(7))?;
    written_of(alloc, Some(edges), extra)
}

fn written_of(alloc: Global, g: Option<EdgeList>, extra: Document) -> Result<Bytes, Fault>
    requires edges { FewEdges g }
    requires extra { extra ≡ picked extra_names extra }
{
    let payload = InsertPayload {
        d: [0x11; 32],
        s: [0x22; 32],
        p: Cipher::Old([0x33; 48]),
        u: [0x44; 16],
        t: 16,
        v: Bytes::from_slice(alloc, &[0x55; 80])?,
        e: [0x66; 32],
        l: [0x77; 32],
        k: 5,
        g,
        extra,
    };
    accepted(write_insert(alloc, &payload))
}

fn print_refusals(rt: &HostRuntime) -> Result<(), Fault> {
    print_all(rt, &REFUSED)?;
    print_all(rt, &CIPHERS)
}

fn print_all(rt: &HostRuntime, blobs: &[&str]) -> Result<(), Fault> {
    for digits in blobs {
        print_read(rt, digits)?;
    }
    Ok(())
}

// A payload that is cut lacks bytes wherever it is cut.
fn print_cuts(rt: &HostRuntime) -> Result<(), Fault> {
    print_read(rt, "")?;
    let blob = hex::decode(rt.alloc(), WRITTEN)?;
    let short = short_cuts(rt.alloc(), blob.as_slice());
    print_line(
        rt,
        format_args!("cut inserts that are short at their end: {short}"),
    )
}

fn short_cuts(alloc: Global, blob: &[u8]) -> u64 {
    let mut short = 0u64;
    for place in 0..blob.len().saturating_sub(1) {
        if is_short_at(alloc, &blob[..place + 1], place) {
            short = short.saturating_add(1);
        }
    }
    short
}

fn is_short_at(alloc: Global, blob: &[u8], place: usize) -> bool {
    let kind = BsonKind::Short;
    match read_insert(alloc, blob) {
        Err(Malformed::At { path, kind: got }) => {
            path.as_str() == "." && got == Kind::Bson(BsonFault::At { place, kind })
        }
        _ => false,
    }
}
