//! Prints all range fields of values of up to 5 digits from 0: a line for each greatest value, sparsity and trim
//! factor that make a domain, with how many edges its values have in all, how many prefixes the covers of all
//! intervals have, and a checksum of their texts. Read: tally, table.
#![tactic(auto)]

mod table;
mod tally;

use table::{Fault, print_domains};

fn main(rt: HostRuntime) -> Result<(), Fault> {
    println!(rt; "greatest sparsity trim edges covers checksum")?;
    for max in 1..32 {
        print_domains(&rt, max)?;
    }
    Ok(())
}
