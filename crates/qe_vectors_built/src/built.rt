//! Documents that are built field by field.

use crate::nested::{put, size_of};
use qe_base::{Bytes, Text};
use qe_document::{Document, PushFault, Value, Values, value_bytes, value_from};
use qe_line::{Fault, accepted, print_hex, print_line};
use std::alloc::Global;

/// Prints a document of two fields, and what it refuses.
pub fn print(rt: &HostRuntime) -> Result<(), Fault> {
    print_two(rt)?;
    print_again(rt)?;
    print_zero(rt)?;
    print_value(rt)
}

fn print_two(rt: &HostRuntime) -> Result<(), Fault> {
    let document = two_fields(rt.alloc())?;
    print_fields(rt, &document)?;
    print_items(rt, &document)
}

fn two_fields(alloc: Global) -> Result<Document, Fault> {
    let items = one_item(alloc)?;
    let mut document = Document::new(alloc);
    if document.is_empty() {
        put(alloc, &mut document, "a", Value::Array(items))?;
    }
    put(alloc, &mut document, "d", Value::Doc(Document::new(alloc)))?;
    Ok(document)
}

fn one_item(alloc: Global) -> Result<Values, Fault> {
    let mut items = Values::new(alloc);
    if items.is_empty() {
        items.push(Value::Int32(7))?;
    }
    Ok(items)
}

fn print_fields(rt: &HostRuntime, document: &Document) -> Result<(), Fault> {
    for i in 0..document.len() {
        let is_document = document.value(i).as_document().is_some();
        print_field(rt, i, document.name(i), is_document)?;
    }
    Ok(())
}

fn print_field(rt: &HostRuntime, i: usize, name: &str, is_document: bool) -> Result<(), Fault> {
    print_line(
        rt,
        format_args!("field {i}: {name}, a document {is_document}"),
    )
}

fn print_items(rt: &HostRuntime, document: &Document) -> Result<(), Fault> {
    print_line(rt, format_args!("field b: {}", document.get("b").is_some()))?;
    if let Some(items) = document.get("a").and_then(Value::as_array) {
        print_line(
            rt,
            format_args!("items: {} {}", items.len(), items.slice().len()),
        )?;
    }
    Ok(())
}

// A name is added once.
fn print_again(rt: &HostRuntime) -> Result<(), Fault> {
    let again = pushed_again(rt.alloc())?;
    print_line(rt, format_args!("again a: {again:?}"))
}

fn pushed_again(alloc: Global) -> Result<Result<(), PushFault>, Fault> {
    let name = Text::of(alloc, "a")?;
    let mut document = two_fields(alloc)?;
    Ok(document.push(name, Value::Null))
}

fn print_zero(rt: &HostRuntime) -> Result<(), Fault> {
    let mut document = Document::new(rt.alloc());
    put(rt.alloc(), &mut document, "\0", Value::Null)?;
    match size_of(rt.alloc(), &document) {
        Ok(_) => Err(Fault::Refused),
        Err(fault) => { print_line(rt, format_args!("encode a zero in a name: {fault:?}")) }
    }
}

fn print_value(rt: &HostRuntime) -> Result<(), Fault> {
    let bytes = int32(rt.alloc())?;
    print_hex(rt, "int32 -2", bytes.slice())?;
    print_read(rt, bytes.slice())
}

fn int32(alloc: Global) -> Result<Bytes, Fault> {
    accepted(value_bytes(alloc, &Value::Int32(-2)))
}

fn print_read(rt: &HostRuntime, bytes: &[u8]) -> Result<(), Fault> {
    let value = accepted(value_from(rt.alloc(), 0x10, bytes))?;
    print_int32(rt, &value)
}

fn print_int32(rt: &HostRuntime, value: &Value) -> Result<(), Fault> {
    match value {
        Value::Int32(read) => print_line(rt, format_args!("and back: {read}")),
        _ => Err(Fault::Refused),
    }
}
