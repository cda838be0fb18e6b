//! Commands applied by the thousand.

ghost use Rattle.qe_command_document.specs.CommandDocument.{Fits};

use crate::documents::{
    Fields, begin_of, command_of, end_of, find_of, insert_of, schema, step_of, two_fields,
};
use qe_base::Nonces;
use qe_command_fits::what_fits_is_of_its_schema;
use qe_document::Document;
use qe_engine::{Command, Engine, Reply, nonces_needed};
use qe_line::Fault;
use std::alloc::Global;

// Units of a step of a whole compaction, and finds, and steps of a unit.
const MANY: u32 = 1000;

/// What is timed.
#[derive(Clone, Copy)]
pub enum Work {
    /// Inserts are made alone.
    Made,
    /// They are applied.
    Inserts,
    /// A thousand finds follow.
    Finds,
    /// A compaction begins, with a thousand steps of a unit.
    Steps,
    /// It is done in steps of a thousand units.
    Compaction,
}

impl Work {
    /// The work of a name, if it is one.
    pub fn named(name: &str) -> Option<Work> {
        match name {
            "made" => Some(Work::Made),
            "inserts" => Some(Work::Inserts),
            "finds" => Some(Work::Finds),
            "steps" => Some(Work::Steps),
            "compaction" => Some(Work::Compaction),
            _ => None,
        }
    }
}

/// What was made and found.
#[derive(Clone, Copy)]
pub struct Found {
    /// Nonces of an insert that was made, the last document's number, documents that the finds found together, or units left.
    pub found: u64,
    /// Rows by identifier.
    pub rows: u64,
    /// Rows for the next compaction.
    pub left: u64,
}

// An engine with what it is sent.
#[derive(Drop)]
struct Bench {
    alloc: Global,
    fields: Fields,
    nonces: Nonces,
    engine: Engine,
}

impl Bench {
    fn new(alloc: Global) -> Result<Bench, Fault> {
        let mut nonces = Nonces::new(alloc);
        for _ in 0..MANY {
            nonces.push([9; 16])?;
        }
        Ok(Bench {
            alloc,
            fields: two_fields(),
            nonces,
            engine: Engine::new(alloc, schema(alloc)?)?,
        })
    }

    // Applies the command of a document.
    fn run(&mut self, document: &Document) -> Result<Reply, Fault> {
        let command = command_of(self.alloc, self.engine.schema(), document)?;
        apply(&mut self.engine, command, self.nonces.slice())
    }

    // Makes inserts, and answers how many nonces they need.
    fn make(&self, count: u32) -> Result<u64, Fault> {
        let mut found = 0;
        for number in 0..count {
            let document = insert_of(self.alloc, &self.fields, number)?;
            let command = command_of(self.alloc, self.engine.schema(), &document)?;
            found = nonces_needed(&command) as u64;
        }
        Ok(found)
    }

    fn insert(&mut self, count: u32) -> Result<u64, Fault> {
        let mut found = 0;
        for number in 0..count {
            let document = insert_of(self.alloc, &self.fields, number)?;
            match self.run(&document)? {
                Reply::Inserted => found = u64::from(number),
                _ => return Err(Fault::Refused),
            }
        }
        Ok(found)
    }

    // Finds of a color each, and how many documents they found together.
    fn find(&mut self) -> Result<u64, Fault> {
        let mut found: u64 = 0;
        for number in 0..MANY {
            let document = find_of(self.alloc, &self.fields, number)?;
            match self.run(&document)? {
                Reply::Ids(ids) => found = found.wrapping_add(ids.len() as u64),
                _ => return Err(Fault::Refused),
            }
        }
        Ok(found)
    }

    // The first steps of a compaction, and how many rows and identifiers are left.
    fn step(&mut self, steps: u32, limit: i32) -> Result<u64, Fault> {
        let begin = begin_of(self.alloc, &self.fields)?;
        self.run(&begin)?;
        let step = step_of(self.alloc, limit)?;
        let mut found = 0;
        for _ in 0..steps {
            match self.run(&step)? {
                Reply::Stepped(0) => return Ok(0),
                Reply::Stepped(left) => found = left,
                _ => return Err(Fault::Refused),
            }
        }
        Ok(found)
    }

    // A whole compaction, and how many rows and identifiers are left.
    fn compact(&mut self, steps: u32) -> Result<u64, Fault> {
        let left = self.step(steps, 1000)?;
        let end = end_of(self.alloc)?;
        self.run(&end)?;
        Ok(left)
    }

    fn work(&mut self, work: Work, count: u32) -> Result<u64, Fault> {
        if matches!(work, Work::Made) {
            return self.make(count);
        }
        let found = self.insert(count)?;
        match work {
            Work::Finds => self.find(),
            Work::Steps => self.step(MANY, 1),
            Work::Compaction => self.compact(count),
            _ => Ok(found),
        }
    }
}

/// Does the work with so many documents.
pub fn done(alloc: Global, work: Work, count: u32) -> Result<Found, Fault> {
    let mut bench = Bench::new(alloc)?;
    let found = bench.work(work, count)?;
    Ok(Found {
        found,
        rows: bench.engine.esc_rows(),
        left: bench.engine.ecoc_rows(),
    })
}

// Applies a command with the first of these nonces.
fn apply(engine: &mut Engine, command: Command, nonces: &[[u8; 16]]) -> Result<Reply, Fault>
    requires { Fits engine.old.schema command }
{
    what_fits_is_of_its_schema();
    let _fields = engine.schema().fields();
    let needed = nonces_needed(&command);
    if needed > nonces.len() {
        return Err(Fault::Refused);
    }
    Ok(engine.apply(0, command, &nonces[..needed])?)
}
