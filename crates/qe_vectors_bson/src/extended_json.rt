//! MongoDB Extended JSON: what is read of a text, and what is printed.

use qe_base::Bytes;
use qe_bson::{JsonFault, Value, encode, from_json, to_json, value_from};
use qe_line::{Fault, Hex, accepted, print_line};
use serde_json::Value as Json;
use std::alloc::{AllocError, Global};

const FORMS: [&str; 22] = [
    "{\"v\":5}",
    "{\"v\":-2147483648}",
    "{\"v\":2147483648}",
    "{\"v\":-9223372036854775808}",
    "{\"v\":9223372036854775807}",
    "{\"v\":\"a\\\"\\u00e9\"}",
    "{\"v\":true}",
    "{\"v\":null}",
    "{\"v\":[1,\"x\",[]]}",
    "{\"v\":{}}",
    "{\"v\":{\"b\":1,\"a\":{\"c\":null}}}",
    "{\"v\":{\"a\":1,\"a\":2}}",
    "{\"v\":{\"$numberInt\":\"-5\"}}",
    "{\"v\":{\"$numberInt\":\"0\"}}",
    "{\"v\":{\"$numberLong\":\"5\"}}",
    "{\"v\":{\"$numberLong\":\"-9223372036854775808\"}}",
    "{\"v\":{\"$oid\":\"0123456789abcdefABCDEF00\"}}",
    "{\"v\":{\"$binary\":{\"base64\":\"AQID/w==\",\"subType\":\"0A\"}}}",
    "{\"v\":{\"$binary\":{\"base64\":\"\",\"subType\":\"04\"}}}",
    "{\"v\":{\"$date\":{\"$numberLong\":\"-1\"}}}",
    "{\"v\":{\"$oid\":1,\"x\":2}}",
    "{\"v\":{\"$numberDouble\":\"1\"}}",
];

const NO_FORMS: [&str; 30] = [
    "-0",
    "1.0",
    "1e2",
    "9223372036854775808",
    "-9223372036854775809",
    "{\"$numberInt\":\"-0\"}",
    "{\"$numberInt\":\"05\"}",
    "{\"$numberInt\":\"+5\"}",
    "{\"$numberInt\":\"\"}",
    "{\"$numberInt\":5}",
    "{\"$numberInt\":\"2147483648\"}",
    "{\"$numberLong\":\"9223372036854775808\"}",
    "{\"$numberLong\":\"1.0\"}",
    "{\"$oid\":\"zz\"}",
    "{\"$oid\":\"0123456789abcdefabcdef0\"}",
    "{\"$oid\":\"0123456789abcdefabcdefxx\"}",
    "{\"$binary\":\"AQID\"}",
    "{\"$binary\":{\"base64\":\"AQID\"}}",
    "{\"$binary\":{\"base64\":\"AQID\",\"subType\":\"04\",\"x\":1}}",
    "{\"$binary\":{\"base64\":\"AQID\",\"subType\":\"4\"}}",
    "{\"$binary\":{\"base64\":\"AQ\",\"subType\":\"04\"}}",
    "{\"$binary\":{\"base64\":\"AR==\",\"subType\":\"04\"}}",
    "{\"$binary\":{\"base64\":\"AQ ==\",\"subType\":\"04\"}}",
    "{\"$date\":0}",
    "{\"$date\":{\"$numberInt\":\"0\"}}",
    "{\"$date\":{\"$numberLong\":\"0\",\"x\":1}}",
    "[1.0,{\"$oid\":\"zz\"}]",
    "[{\"$oid\":\"zz\"},1.0]",
    "{\"b\":{\"$oid\":1},\"a\":1.0}",
    "{\"a\":{\"$oid\":1},\"b\":1.0}",
];

const OBJECT_ID: &str = "{\"$oid\":\"0123456789abcdefabcdef00\"}";

const EPOCH: &str = "{\"$date\":{\"$numberLong\":\"0\"}}";

const WRONG_DATE: &str = "{\"$date\":{\"$numberLong\":0}}";

const LEVELS: [(usize, &str); 9] = [
    (100, ""),
    (101, ""),
    (99, OBJECT_ID),
    (100, OBJECT_ID),
    (98, EPOCH),
    (99, EPOCH),
    (99, WRONG_DATE),
    (100, WRONG_DATE),
    (100, "1.0"),
];

// Values of each type, by its byte. The last four hold a double, a decimal and a timestamp.
const VALUES: [(u8, &[u8]); 13] = [
    (0x10, b"\xfb\xff\xff\xff"),
    (0x12, b"\x05\0\0\0\0\0\0\0"),
    (0x08, b"\0"),
    (0x0a, b""),
    (0x09, b"\xff\xff\xff\xff\xff\xff\xff\xff"),
    (0x07, b"\xa0\xa1\xa2\xa3\xa4\xa5\xa6\xa7\xa8\xa9\xaa\xab"),
    (0x02, b"\x05\0\0\0a\x22\xc3\xa9\0"),
    (0x05, b"\x04\0\0\0\x04\x01\x02\x03\xff"),
    (
        0x03,
        b"$\0\0\0\x04b\0\x14\0\0\0\x10\x30\0\x01\0\0\0\x04\x31\0\x05\0\0\0\0\0\x03a\0\x05\0\0\0\0\0",
    ),
    (0x01, b"\0\0\0\0\0\0\0\0"),
    (0x13, b"\0\0\0\0\0\0\0\0\0\0\0\0\0\0\0\0"),
    (0x11, b"\0\0\0\0\0\0\0\0"),
    (
        0x03,
        b"\x1e\0\0\0\x0ab\0\x04a\0\x13\0\0\0\x0a\x30\0\x11\x31\0\x01\0\0\0\0\0\0\0\0\0",
    ),
];

/// Prints what is read, refused and printed.
pub fn print(rt: &HostRuntime) -> Result<(), Fault> {
    print_forms(rt)?;
    print_no_forms(rt)?;
    print_levels(rt)?;
    print_values(rt)
}

fn print_forms(rt: &HostRuntime) -> Result<(), Fault> {
    for text in FORMS {
        print_form(rt, text)?;
    }
    Ok(())
}

fn print_no_forms(rt: &HostRuntime) -> Result<(), Fault> {
    for text in NO_FORMS {
        print_no_form(rt, text)?;
    }
    Ok(())
}

fn print_levels(rt: &HostRuntime) -> Result<(), Fault> {
    for (levels, text) in LEVELS {
        print_nested(rt, levels, text)?;
    }
    Ok(())
}

fn print_values(rt: &HostRuntime) -> Result<(), Fault> {
    for (kind, bytes) in VALUES {
        print_printed(rt, kind, bytes)?;
    }
    Ok(())
}

// The bytes of the document that a text is read as.
fn print_form(rt: &HostRuntime, text: &str) -> Result<(), Fault> {
    let bytes = document_of(rt.alloc(), text)?;
    print_line(rt, format_args!("json {text}: {}", Hex(bytes.slice())))
}

fn document_of(alloc: Global, text: &str) -> Result<Bytes, Fault> {
    let json = accepted(Json::from_str(alloc, text))?;
    let value = accepted(from_json(alloc, &json))?;
    encoded(alloc, &value)
}

fn encoded(alloc: Global, value: &Value) -> Result<Bytes, Fault> {
    match value.as_document() {
        Some(document) => accepted(encode(alloc, document)),
        None => Err(Fault::Refused),
    }
}

fn print_no_form(rt: &HostRuntime, text: &str) -> Result<(), Fault> {
    match fault_of(rt.alloc(), text)? {
        None => print_line(rt, format_args!("json {text}: read")),
        Some(fault) => print_line(rt, format_args!("json {text}: {fault:?}")),
    }
}

fn fault_of(alloc: Global, text: &str) -> Result<Option<JsonFault>, Fault> {
    let json = accepted(Json::from_str(alloc, text))?;
    Ok(from_json(alloc, &json).err())
}

// So many arrays, each inside the other, round the text.
fn print_nested(rt: &HostRuntime, levels: usize, text: &str) -> Result<(), Fault> {
    match nested_fault(rt.alloc(), levels, text)? {
        None => print_line(rt, format_args!("json {text} in {levels} arrays: read")),
        Some(fault) => print_line(
            rt,
            format_args!("json {text} in {levels} arrays: {fault:?}"),
        ),
    }
}

fn nested_fault(alloc: Global, levels: usize, text: &str) -> Result<Option<JsonFault>, Fault> {
    let whole = in_arrays(alloc, levels, text)?;
    fault_of(alloc, whole.as_str())
}

fn in_arrays(alloc: Global, levels: usize, text: &str) -> Result<String, AllocError> {
    let open = "[".repeat(alloc, levels)?;
    let close = "]".repeat(alloc, levels)?;
    format!(in alloc; "{open}{text}{close}")
}

fn print_printed(rt: &HostRuntime, kind: u8, bytes: &[u8]) -> Result<(), Fault> {
    let value = accepted(value_from(rt.alloc(), kind, bytes))?;
    match to_json(rt.alloc(), &value) {
        Ok(json) => print_json(rt, kind, bytes, &json),
        Err(fault) => print_line(rt, format_args!("value {kind} {}: {fault:?}", Hex(bytes))),
    }
}

fn print_json(rt: &HostRuntime, kind: u8, bytes: &[u8], json: &Json) -> Result<(), Fault> {
    let text = json.to_string(rt.alloc())?;
    print_line(rt, format_args!("value {kind} {}: {text}", Hex(bytes)))
}
