//! Payloads of finds, as another program writes them.

use crate::inserts::{print_carried, print_malformed};
use qe_base::{Bytes, NoMemory};
use qe_document::{Document, Value, Values, encode};
use qe_line::{Fault, Hex, accepted, print_hex, print_line};
use qe_parts::put;
use qe_payload::{
    FindEdge, FindEdges, FindEqual, FindRange, read_equal, read_range, write_equal, write_range,
};
use std::alloc::Global;

// A find of an equality.
const EQUAL: &str =
    "0c8900000005640020000000001111111111111111111111111111111111111111111111111111111111111111057300\
    20000000002222222222222222222222222222222222222222222222222222222222222222056c002000000000333333\
    333333333333333333333333333333333333333333333333333333333312636d00030000000000000000";

// A find of a range with two edges, `sp` and `mx`.
const RANGE: &str =
    "0d71010000037061796c6f61640019010000046700050100000330007d00000005640020000000001111111111111111\
    111111111111111111111111111111111111111111111111057300200000000022222222222222222222222222222222\
    22222222222222222222222222222222056c002000000000333333333333333333333333333333333333333333333333\
    3333333333333333000331007d0000000564002000000000444444444444444444444444444444444444444444444444\
    444444444444444405730020000000005555555555555555555555555555555555555555555555555555555555555555\
    056c0020000000006666666666666666666666666666666666666666666666666666666666666666000012636d000700\
    00000000000000107061796c6f6164496400feffffff1066697273744f70657261746f720002000000107365636f6e64\
    4f70657261746f720004000000127370000200000000000000106d78000900000000";

// The same in another order, inside too.
const MIXED: &str =
    "0d71010000106d780009000000107365636f6e644f70657261746f720004000000127370000200000000000000037061\
    796c6f6164001901000012636d000700000000000000046700050100000330007d000000056c00200000000033333333\
    333333333333333333333333333333333333333333333333333333330564002000000000111111111111111111111111\
    111111111111111111111111111111111111111105730020000000002222222222222222222222222222222222222222\
    222222222222222222222222000331007d000000056c0020000000006666666666666666666666666666666666666666\
    666666666666666666666666056400200000000044444444444444444444444444444444444444444444444444444444\
    444444440573002000000000555555555555555555555555555555555555555555555555555555555555555500000010\
    66697273744f70657261746f720002000000107061796c6f6164496400feffffff00";

const EDGES: [FindEdge; 2] = [
    FindEdge {
        d: [0x11; 32],
        s: [0x22; 32],
        l: [0x33; 32],
    },
    FindEdge {
        d: [0x44; 32],
        s: [0x55; 32],
        l: [0x66; 32],
    },
];

// Finds of an equality that are refused.
const EQUAL_REFUSED: [&str; 9] = [
    "",
    "0b0500000000",
    "0c05",
    "0c050000000000",
    "0c0500000000",
    "0c080000000a780000",
    "0c080000000a640000",
    "0c0e00000005640001000000000000",
    "0c1100000012636d00ffffffffffffffff00",
];

// Finds of a range that are refused.
const RANGE_REFUSED: [&str; 10] = [
    "0c0500000000",
    "0d050000000000",
    "0d0500000000",
    "0d0c0000001078000100000000",
    "0d180000001066697273744f70657261746f72000300000000",
    "0d1c0000001266697273744f70657261746f7200020000000000000000",
    "0d19000000107365636f6e644f70657261746f72000200000000",
    "0d27000000037061796c6f61640019000000046700050000000012636d0000000000000000000000",
    "0d36000000037061796c6f61640019000000046700050000000012636d00000000000000000000107061796c6f61644964000000000000",
    "0d49000000037061796c6f61640019000000046700050000000012636d00000000000000000000107061796c6f6164496400000000001066697273744f70657261746f72000200000000",
];

// The same for their inner document.
const INNER_REFUSED: [&str; 9] = [
    "0d13000000037061796c6f616400050000000000",
    "0d1b000000037061796c6f6164000d00000004670005000000000000",
    "0d1a000000037061796c6f6164000c000000107800000000000000",
    "0d12000000107061796c6f6164000000000000",
    "0d1a000000037061796c6f6164000c000000106700000000000000",
    "0d23000000037061796c6f616400150000000467000d0000000330000500000000000000",
    "0d22000000037061796c6f616400140000000467000c00000010300000000000000000",
    "0d2c000000037061796c6f6164001e000000046700160000000330000e00000005640001000000000000000000",
    "0d1f000000037061796c6f6164001100000012636d00ffffffffffffffff0000",
];

/// Prints what is read, written and refused.
pub fn print(rt: &HostRuntime) -> Result<(), Fault> {
    print_equal(rt, EQUAL)?;
    print_equals(rt, &EQUAL_REFUSED)?;
    print_ranges(rt, &[RANGE, MIXED])?;
    print_written(rt)?;
    print_ranges(rt, &RANGE_REFUSED)?;
    print_ranges(rt, &INNER_REFUSED)?;
    print_many_edges(rt)
}

fn print_written(rt: &HostRuntime) -> Result<(), Fault> {
    let equal = equal_of(rt.alloc())?;
    print_hex(rt, "find of an equality", equal.slice())?;
    print_written_range(rt)
}

fn print_written_range(rt: &HostRuntime) -> Result<(), Fault> {
    let range = range_of(rt.alloc())?;
    print_hex(rt, "find of a range", range.slice())
}

fn print_equal(rt: &HostRuntime, digits: &str) -> Result<(), Fault> {
    let blob = hex::decode(rt.alloc(), digits)?;
    print_equal_blob(rt, digits, blob.as_slice())
}

fn print_equal_blob(rt: &HostRuntime, digits: &str, blob: &[u8]) -> Result<(), Fault> {
    match read_equal(rt.alloc(), blob) {
        Ok(payload) => print_find(rt, &payload),
        Err(fault) => print_malformed(rt, "find", digits, &fault),
    }
}

fn print_find(rt: &HostRuntime, payload: &FindEqual) -> Result<(), Fault> {
    print_line(
        rt,
        format_args!("d {} s {}", Hex(&payload.d), Hex(&payload.s)),
    )?;
    print_line(rt, format_args!("l {} cm {}", Hex(&payload.l), payload.cm))
}

fn equal_of(alloc: Global) -> Result<Bytes, Fault> {
    let payload = FindEqual {
        d: [0x11; 32],
        s: [0x22; 32],
        l: [0x33; 32],
        cm: 3,
    };
    accepted(write_equal(alloc, &payload))
}

fn print_equals(rt: &HostRuntime, blobs: &[&str]) -> Result<(), Fault> {
    for digits in blobs {
        print_equal(rt, digits)?;
    }
    Ok(())
}

fn print_ranges(rt: &HostRuntime, blobs: &[&str]) -> Result<(), Fault> {
    for digits in blobs {
        print_range(rt, digits)?;
    }
    Ok(())
}

fn print_range(rt: &HostRuntime, digits: &str) -> Result<(), Fault> {
    let blob = hex::decode(rt.alloc(), digits)?;
    print_range_blob(rt, digits, blob.as_slice())
}

fn print_range_blob(rt: &HostRuntime, digits: &str, blob: &[u8]) -> Result<(), Fault> {
    match read_range(rt.alloc(), blob) {
        Ok(payload) => print_payload(rt, &payload),
        Err(fault) => print_malformed(rt, "find of a range", digits, &fault),
    }
}

fn print_payload(rt: &HostRuntime, payload: &FindRange) -> Result<(), Fault> {
    print_line(
        rt,
        format_args!("cm {} payloadId {}", payload.cm, payload.payload_id),
    )?;
    print_edges(rt, &payload.g)?;
    print_carried(rt, &payload.extra)
}

fn print_edges(rt: &HostRuntime, edges: &FindEdges) -> Result<(), Fault> {
    for edge in edges.slice() {
        print_edge(rt, edge)?;
    }
    Ok(())
}

fn print_edge(rt: &HostRuntime, edge: &FindEdge) -> Result<(), Fault> {
    print_line(
        rt,
        format_args!(
            "edge d {} s {} l {}",
            Hex(&edge.d),
            Hex(&edge.s),
            Hex(&edge.l)
        ),
    )
}

fn range_of(alloc: Global) -> Result<Bytes, Fault> {
    let g = FindEdges::from_slice(alloc, &EDGES)?;
    let mut extra = Document::new(alloc);
    put(alloc, &mut extra, "sp", Value::Int64(2))?;
    put(alloc, &mut extra, "mx", Value::Int32(9))?;
    let payload = FindRange {
        g,
        cm: 7,
        payload_id: -2,
        extra,
    };
    accepted(write_range(alloc, &payload))
}

// 4,097 edges.
fn print_many_edges(rt: &HostRuntime) -> Result<(), Fault> {
    let blob = many_edges(rt.alloc())?;
    print_range_blob(rt, "of 4097 edges", blob.slice())
}

fn many_edges(alloc: Global) -> Result<Bytes, Fault> {
    let inner = in_document(alloc, "g", Value::Array(nulls(alloc)?))?;
    let document = in_document(alloc, "payload", Value::Doc(inner))?;
    blob_of(alloc, accepted(encode(alloc, &document))?.slice())
}

fn nulls(alloc: Global) -> Result<Values, NoMemory> {
    let mut items = Values::new(alloc);
    for _ in 0..4097 {
        items.push(Value::Null)?;
    }
    Ok(items)
}

fn in_document(alloc: Global, name: &str, value: Value) -> Result<Document, NoMemory> {
    let mut document = Document::new(alloc);
    put(alloc, &mut document, name, value)?;
    Ok(document)
}

fn blob_of(alloc: Global, document: &[u8]) -> Result<Bytes, Fault> {
    let mut blob = Bytes::from_slice(alloc, &[13])?;
    blob.extend(document)?;
    Ok(blob)
}
