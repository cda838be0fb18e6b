//! The token tree and its identifiers, for the data key 00 to 5f and the int32 value 5.

use qe_base::{Bytes, Duplicate, NoMemory};
use qe_line::{Fault, Hex, counting, print_hexes, print_line};
use qe_tokens::{
    EscTag, Label, LabelKind, Word, anchor_id, collections, document_tag, ecoc, edc,
    edc_contention, edc_derived, edc_twice, esc, esc_contention, esc_derived, esc_tag, esc_value,
    null_id, position_id, root_key, server_cipher, server_count, server_derived, server_token,
    server_zeros,
};
use std::alloc::Global;

const ITEM: [u8; 4] = [5, 0, 0, 0];

/// Prints the tokens of both sides, and the identifiers.
pub fn print(rt: &HostRuntime) -> Result<(), Fault> {
    print_documents(rt)?;
    print_rows(rt)?;
    print_server(rt)?;
    print_label(rt)
}

// The derived tokens by libmongocrypt 1.7.2, the others by Python's `hmac`.
fn print_documents(rt: &HostRuntime) -> Result<(), Fault> {
    let level = collections(&root_key(&counting(0)));
    let derived = edc_derived(&edc(&level), &ITEM);
    let contention = edc_contention(&derived, 0);
    let twice = edc_twice(&contention);
    let rows = [
        ("EDC derived", derived.0),
        ("EDC derived under factor 0", contention.0),
        ("EDC twice derived", twice.0),
        ("tag of document 1", document_tag(&twice, 1)),
    ];
    print_hexes(rt, &rows)
}

// Likewise.
fn print_rows(rt: &HostRuntime) -> Result<(), Fault> {
    let level = collections(&root_key(&counting(0)));
    let derived = esc_derived(&esc(&level), &ITEM);
    let contention = esc_contention(&derived, 0);
    let (ecoc, value) = (ecoc(&level).0, esc_value(&contention).0);
    let tag = esc_tag(&contention);
    let rows = [
        ("ECOC", ecoc),
        ("ESC derived", derived.0),
        ("ESC derived under factor 0", contention.0),
        ("ESC value", value),
        ("ESC tag", tag.0),
        ("position 1", position_id(&tag, 1)),
        ("anchor 1", anchor_id(&tag, 1)),
        ("null anchor", null_id(&tag)),
    ];
    print_hexes(rt, &rows)
}

// The server's cipher by libmongocrypt 1.7.2, the others by Python's `hmac`.
fn print_server(rt: &HostRuntime) -> Result<(), Fault> {
    let root = root_key(&counting(0));
    let derived = server_derived(&server_token(&root), &ITEM);
    let cipher = server_cipher(&root).0;
    let count = server_count(&derived).0;
    let zeros = server_zeros(&derived).0;
    let rows = [
        ("server cipher", cipher),
        ("server derived", derived.0),
        ("server count", count),
        ("server zeros", zeros),
    ];
    print_hexes(rt, &rows)
}

// A label is copied whole.
fn print_label(rt: &HostRuntime) -> Result<(), Fault> {
    let label = Label {
        kind: LabelKind::Tag,
        word: word_of(rt.alloc())?,
        number: 3,
    };
    print_copied(rt, &label.copy()?)
}

fn word_of(alloc: Global) -> Result<Word, NoMemory> {
    Ok(Word::Item {
        field: 1,
        item: Bytes::from_slice(alloc, b"item")?,
        contention: 2,
    })
}

fn print_copied(rt: &HostRuntime, label: &Label) -> Result<(), Fault> {
    match &label.word {
        Word::Item {
            field,
            item,
            contention,
        } => print_line(
            rt,
            format_args!(
                "label: {:?} {} of field {field} item {} factor {contention}",
                label.kind,
                label.number,
                Hex(item.slice())
            ),
        ),
        Word::Stray { .. } => Err(Fault::Refused),
    }
}
