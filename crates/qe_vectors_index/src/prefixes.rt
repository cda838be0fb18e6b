//! Edges and covers, as a Python program lists them.

ghost use Rattle.std.specs.Prelude.{All};
ghost use Rattle.qe_edges.specs.Prefixes.{IsSpelled};
ghost use Rattle.qe_edges.specs.Rules.{InDomain};

use qe_base::{Duplicate, NoMemory};
use qe_edges::{Domain, Edge, Edges};
use qe_line::{Fault, accepted, print_line};
use std::alloc::{AllocError, Global};

/// Prints edges and covers, and which rules make no domain.
pub fn print(rt: &HostRuntime) -> Result<(), Fault> {
    print_small_edges(rt)?;
    print_small_covers(rt)?;
    print_int32(rt)?;
    print_int64(rt)?;
    print_faults(rt)
}

// Adds a blank and the text of a prefix.
fn add_text(all: &mut String, edge: &Edge) -> Result<(), AllocError>
    requires { IsSpelled edge.now }
{
    let mut text = [0; 64];
    let len = edge.text(&mut text);
    all.push(' ')?;
    for byte in text.iter().take(len) {
        all.push(char::from(*byte))?;
    }
    Ok(())
}

// The texts of prefixes, with a blank before each.
fn texts(alloc: Global, edges: &Edges) -> Result<String, AllocError>
    requires { All IsSpelled edges.now }
{
    let mut all = String::new(alloc);
    for edge in edges.slice() {
        add_text(&mut all, edge)?;
    }
    Ok(all)
}

fn edges_text(alloc: Global, domain: &Domain, v: i64) -> Result<String, Fault> {
    if !domain.holds(v) {
        return Err(Fault::Refused);
    }
    let edges = domain.edges(alloc, v)?;
    Ok(texts(alloc, &edges)?)
}

fn cover_text(alloc: Global, domain: &Domain, lo: i64, hi: i64) -> Result<String, Fault> {
    let cover = domain.cover(alloc, lo, hi)?;
    Ok(texts(alloc, &cover)?)
}

// Sparsity and trim.
const SMALL_EDGES: [(u32, u32); 3] = [(1, 0), (2, 0), (1, 2)];

// The edges of 5 in 0 to 7.
fn print_small_edges(rt: &HostRuntime) -> Result<(), Fault> {
    for (sparsity, trim) in SMALL_EDGES {
        print_edges(rt, sparsity, trim)?;
    }
    Ok(())
}

fn print_edges(rt: &HostRuntime, sparsity: u32, trim: u32) -> Result<(), Fault> {
    let domain = accepted(Domain::new(0, 7, sparsity, Some(trim)))?;
    let texts = edges_text(rt.alloc(), &domain, 5)?;
    print_line(
        rt,
        format_args!("edges of 5, sparsity {sparsity}, trim {trim}:{texts}"),
    )
}

// The greatest value, sparsity, and the interval that is covered.
const SMALL_COVERS: [(i64, u32, i64, i64); 6] = [
    (7, 2, 0, 3),
    (7, 1, 1, 6),
    (5, 1, 4, 5),
    (7, 1, 3, 2),
    (7, 1, 100, 100),
    (7, 1, -9, 9),
];

fn print_small_covers(rt: &HostRuntime) -> Result<(), Fault> {
    for (max, sparsity, lo, hi) in SMALL_COVERS {
        print_small_cover(rt, max, sparsity, (lo, hi))?;
    }
    Ok(())
}

fn print_small_cover(
    rt: &HostRuntime,
    max: i64,
    sparsity: u32,
    (lo, hi): (i64, i64),
) -> Result<(), Fault> {
    let domain = accepted(Domain::new(0, max, sparsity, Some(0)))?;
    let texts = cover_text(rt.alloc(), &domain, lo, hi)?;
    print_line(
        rt,
        format_args!("cover of {lo} to {hi} in 0 to {max}, sparsity {sparsity}:{texts}"),
    )
}

// The whole of int32 with the defaults.
fn print_int32(rt: &HostRuntime) -> Result<(), Fault> {
    let domain = accepted(Domain::new(i64::from(i32::MIN), i64::from(i32::MAX), 2, None))?;
    let (bits, sparsity, trim) = (domain.bits(), domain.sparsity(), domain.trim());
    print_line(
        rt,
        format_args!("int32: bits {bits}, sparsity {sparsity}, trim {trim}"),
    )?;
    print_numbers_of_edges(
        rt,
        &domain,
        &[i64::from(i32::MIN), -1, 0, i64::from(i32::MAX)],
    )
}

fn print_numbers_of_edges(rt: &HostRuntime, domain: &Domain, values: &[i64]) -> Result<(), Fault> {
    for v in values {
        print_number_of_edges(rt, domain, *v)?;
    }
    Ok(())
}

fn print_number_of_edges(rt: &HostRuntime, domain: &Domain, v: i64) -> Result<(), Fault> {
    if !domain.holds(v) {
        return Err(Fault::Refused);
    }
    let count = number_of_edges(rt.alloc(), domain, v)?;
    print_line(rt, format_args!("edges of {v}: {count}"))
}

fn number_of_edges(alloc: Global, domain: &Domain, v: i64) -> Result<usize, NoMemory>
    requires { InDomain domain.now v }
{
    let edges = domain.edges(alloc, v)?;
    Ok(edges.len())
}

const INT64_COVERS: [(i64, i64); 3] = [
    (i64::MIN, i64::MAX),
    (i64::MIN + 1, i64::MAX - 1),
    (i64::MAX, i64::MAX),
];

// The whole of int64.
fn print_int64(rt: &HostRuntime) -> Result<(), Fault> {
    let domain = accepted(Domain::new(i64::MIN, i64::MAX, 8, Some(0)))?;
    let (min, max, bits) = (domain.min(), domain.max(), domain.bits());
    print_line(rt, format_args!("int64: {min} to {max}, bits {bits}"))?;
    print_covers(rt, &domain, &INT64_COVERS)?;
    print_numbers_of_edges(rt, &domain, &[i64::MIN, i64::MAX])
}

fn print_covers(rt: &HostRuntime, domain: &Domain, covers: &[(i64, i64)]) -> Result<(), Fault> {
    for (lo, hi) in covers {
        print_cover(rt, domain, *lo, *hi)?;
    }
    Ok(())
}

// The one prefix of a cover, or their number.
fn print_cover(rt: &HostRuntime, domain: &Domain, lo: i64, hi: i64) -> Result<(), Fault> {
    match number_in_cover(rt.alloc(), domain, lo, hi)? {
        1 => print_cover_text(rt, domain, lo, hi),
        count => print_line(rt, format_args!("cover of {lo} to {hi}: {count} prefixes")),
    }
}

fn print_cover_text(rt: &HostRuntime, domain: &Domain, lo: i64, hi: i64) -> Result<(), Fault> {
    let texts = cover_text(rt.alloc(), domain, lo, hi)?;
    print_line(rt, format_args!("cover of {lo} to {hi}:{texts}"))
}

fn number_in_cover(alloc: Global, domain: &Domain, lo: i64, hi: i64) -> Result<usize, NoMemory> {
    let cover = domain.cover(alloc, lo, hi)?;
    Ok(cover.copy()?.len())
}

// The least and the greatest value, sparsity and trim of rules that make no domain.
const FAULTY: [(i64, i64, u32, Option<u32>); 5] = [
    (7, 7, 0, Some(9)),
    (0, 7, 0, Some(9)),
    (0, 7, 9, None),
    (0, 7, 1, Some(3)),
    (0, 1 << 20, 8, Some(9)),
];

fn print_faults(rt: &HostRuntime) -> Result<(), Fault> {
    for (min, max, sparsity, trim) in FAULTY {
        print_fault(rt, (min, max), sparsity, trim)?;
    }
    Ok(())
}

fn print_fault(
    rt: &HostRuntime,
    (min, max): (i64, i64),
    sparsity: u32,
    trim: Option<u32>,
) -> Result<(), Fault> {
    match Domain::new(min, max, sparsity, trim) {
        Ok(_) => Err(Fault::Refused),
        Err(fault) => print_line(
            rt,
            format_args!("{min} to {max}, sparsity {sparsity}, trim {trim:?}: {fault:?}"),
        ),
    }
}
