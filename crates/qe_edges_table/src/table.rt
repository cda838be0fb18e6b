use crate::tally::Tally;
use qe_base::NoMemory;
use qe_edges::Domain;
use std::alloc::Global;
use std::io;

/// Why the table wasn't printed to its end.
#[derive(Debug, Drop)]
pub enum Fault {
    NoMemory,
    WriteFault,
}

impl From<NoMemory> for Fault {
    fn from(_: NoMemory) -> Self {
        Fault::NoMemory
    }
}

impl From<io::Error> for Fault {
    fn from(_: io::Error) -> Self {
        Fault::WriteFault
    }
}

/// The lines of the domains from 0 to `max`.
pub fn print_domains(rt: &(impl Print + AllocGlobal), max: i64) -> Result<(), Fault> {
    for sparsity in 1..9 {
        print_sparsity(rt, max, sparsity)?;
    }
    Ok(())
}

fn print_sparsity(rt: &(impl Print + AllocGlobal), max: i64, sparsity: u32) -> Result<(), Fault> {
    for trim in 0..6 {
        if let Ok(domain) = Domain::new(0, max, sparsity, Some(trim)) {
            print_line(rt, &domain)?;
        }
    }
    Ok(())
}

fn print_line(rt: &(impl Print + AllocGlobal), domain: &Domain) -> Result<(), Fault> {
    let mut tally = Tally::new();
    take_edges(rt.alloc(), domain, &mut tally)?;
    let edges = tally.prefixes;
    take_covers(rt.alloc(), domain, &mut tally)?;
    let covers = tally.prefixes.wrapping_sub(edges);
    let (max, sparsity, trim, hash) = (domain.max(), domain.sparsity(), domain.trim(), tally.hash);
    println!(rt; "{max} {sparsity} {trim} {edges} {covers} {hash:016x}")?;
    Ok(())
}

// The edges of each value.
fn take_edges(alloc: Global, domain: &Domain, tally: &mut Tally) -> Result<(), NoMemory> {
    for v in 0..64 {
        if domain.holds(v) {
            tally.take(&domain.edges(alloc, v)?);
        }
    }
    Ok(())
}

// The covers of all intervals, from one below the domain to one above.
fn take_covers(alloc: Global, domain: &Domain, tally: &mut Tally) -> Result<(), NoMemory> {
    for lo in -1..domain.max().saturating_add(2) {
        take_covers_from(alloc, domain, lo, tally)?;
    }
    Ok(())
}

fn take_covers_from(
    alloc: Global,
    domain: &Domain,
    lo: i64,
    tally: &mut Tally,
) -> Result<(), NoMemory> {
    for hi in -1..domain.max().saturating_add(2) {
        tally.take(&domain.cover(alloc, lo, hi)?);
    }
    Ok(())
}
