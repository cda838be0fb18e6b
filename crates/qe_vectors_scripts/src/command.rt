//! Commands: their fields by number, their values by type byte and bytes.

use crate::part::print_part;
use qe_base::JobKind;
use qe_bson::{Value, value_bytes, value_kind};
use qe_line::{Fault, Hex, accepted};
use qe_schema::{Cells, Filter, Pairs, PlainCommand, PlainDocument, Term};

fn print_value(rt: &HostRuntime, value: &Value) -> Result<(), Fault> {
    let bytes = accepted(value_bytes(rt.alloc(), value))?;
    print_part(
        rt,
        format_args!("{:02x}:{}", value_kind(value), Hex(bytes.slice())),
    )
}

fn print_cells(rt: &HostRuntime, cells: &Cells) -> Result<(), Fault> {
    for cell in cells.slice() {
        print_cell(rt, cell.field, cell.value.value())?;
    }
    Ok(())
}

fn print_cell(rt: &HostRuntime, field: u32, value: &Value) -> Result<(), Fault> {
    print_part(rt, format_args!(" {field}="))?;
    print_value(rt, value)
}

fn print_term(rt: &HostRuntime, term: &Term) -> Result<(), Fault> {
    match term {
        Term::Id(value) => {
            print_part(rt, " id=")?;
            print_value(rt, value.value())
        }
        Term::Equal { field, value } => print_cell(rt, *field, value.value()),
        Term::Between { field, lo, hi } => print_part(rt, format_args!(" {field}={lo}..{hi}")),
    }
}

fn print_filter(rt: &HostRuntime, filter: &Filter) -> Result<(), Fault> {
    for term in filter.slice() {
        print_term(rt, term)?;
    }
    Ok(())
}

fn print_begin(rt: &HostRuntime, kind: JobKind, tokens: &Pairs) -> Result<(), Fault> {
    let kind = match kind {
        JobKind::Compact => "begin compact",
        JobKind::Cleanup => "begin cleanup",
    };
    print_part(rt, kind)?;
    for pair in tokens.slice() {
        print_part(rt, format_args!(" {}>{}", pair.field, pair.sent))?;
    }
    Ok(())
}

fn print_search(rt: &HostRuntime, filter: &Filter, ids: bool) -> Result<(), Fault> {
    let kind = if ids { "ids" } else { "find" };
    print_part(rt, kind)?;
    print_filter(rt, filter)
}

fn print_update(rt: &HostRuntime, filter: &Filter, set: &Cells) -> Result<(), Fault> {
    print_part(rt, "update")?;
    print_filter(rt, filter)?;
    print_part(rt, " set")?;
    print_cells(rt, set)
}

fn print_insert(rt: &HostRuntime, doc: &PlainDocument) -> Result<(), Fault> {
    print_part(rt, "insert ")?;
    print_value(rt, doc.id.value())?;
    print_cells(rt, &doc.cells)
}

fn print_delete(rt: &HostRuntime, filter: &Filter) -> Result<(), Fault> {
    print_part(rt, "delete")?;
    print_filter(rt, filter)
}

/// Prints a command, without the line's end.
pub fn print(rt: &HostRuntime, command: &PlainCommand) -> Result<(), Fault> {
    match command {
        PlainCommand::Insert { doc } => print_insert(rt, doc),
        PlainCommand::Find { filter, ids } => print_search(rt, filter, *ids),
        PlainCommand::Update { filter, set } => print_update(rt, filter, set),
        PlainCommand::Delete { filter } => print_delete(rt, filter),
        PlainCommand::Begin { kind, tokens } => print_begin(rt, *kind, tokens),
        PlainCommand::Step { job, limit } => { print_part(rt, format_args!("step {job} {limit}")) }
        PlainCommand::End { job } => { print_part(rt, format_args!("end {job}")) }
        PlainCommand::Abandon { job } => { print_part(rt, format_args!("abandon {job}")) }
        PlainCommand::Raise { field, contention } => {
            print_part(rt, format_args!("raise {field} {contention}"))
        }
    }
}
