//! Documents: inserted, found, updated and deleted.

ghost use Rattle.std.specs.Prelude.{◌≡◌, ◌≤◌, ◌<◌, ◌^◌, [], length, true, is_some, slice_get, IfOk, OnErr, map};
ghost use Rattle.std.specs.List.{AllByRecursion};
ghost use Rattle.qe_value.specs.Views.{plain};
ghost use Rattle.qe_command.specs.declared.command.Command.TheVariants.{Insert, Find, Update, Delete};
ghost use Rattle.qe_command.specs.Nonces.{cells_nonces};
ghost use Rattle.qe_command_fits.specs.OfSchema.{IsIdValue};
ghost use Rattle.qe_command_fits.specs.Sizes.{IsSizedCell, IsSizedTerm};
ghost use Rattle.qe_store.specs.Kept.{document_at};
ghost use Rattle.qe_protocol.specs.Documents as docs;
ghost use Rattle.qe_protocol.specs.Next.{row_of};
ghost use Rattle.qe_indexing.specs.Plans.{index_in};
ghost use Rattle.qe_indexing.specs.Cells.{CellsPlanned};
ghost use Rattle.qe_serving.specs.Serving.{state_in, IsServed, AddsOne};
ghost use Rattle.qe_serving.specs.Documents.{picked, AreMatches, FirstMatch, HasIdValue, IsSearched, UpdatePlanned, Replaces};

use crate::collections::Collections;
use crate::made::Made;
use qe_base::{Counts, Duplicate, NoMemory, Numbers};
use qe_document::{Value, Values};
use qe_indexing::{
    Plan, Standing, carry_out, index_cells, make_room, put_cells, search_filter, tags_of,
};
use qe_protocol::{Reply, Row, Rows, SentCells, SentFilter};
use qe_store::{Stored, StoredCells, TermSets};
use std::alloc::Global;

impl Collections {
    // The index as it stands.
    fn standing(&self) -> Standing<'_>
        ensures { index_in result ≡ (state_in self.now).index }
    {
        Standing {
            alloc: self.alloc,
            esc: &self.esc,
            ecoc: &self.ecoc,
        }
    }

    /// Adds a document, where none has its id.
    pub(crate) fn insert(
        &mut self,
        id: &Value,
        cells: &SentCells,
        nonces: &[[u8; 16]],
    ) -> Result<Made, NoMemory>
        requires id { IsIdValue id.now }
        requires sizes { AllByRecursion (λ cell. IsSizedCell cell.1) cells.now }
        requires nonces { cells_nonces cells.now ≤ length nonces.now }
        requires made { self.old.store.made < 2 ^ 63 }
        ensures ok { IfOk result (IsServed (state_in self.old) (state_in self.new) (Insert id.now cells.now) nonces.now) }
        ensures err { OnErr result (state_in self.new ≡ state_in self.old) }
        ensures made { AddsOne self.old self.new }
        ensures kept { OnErr result (self.new.store.made ≡ self.old.store.made) }
    {
        if self.store.number_of(id).is_some() {
            return Ok(Made::replied(self.alloc, Reply::DuplicateId));
        }
        let mut plan = Plan::new(self.alloc, Counts::new(self.alloc));
        let stored = self.plan_document(id, cells, nonces, &mut plan)?;
        self.store.reserve(1, stored.tags.len())?;
        make_room(&plan, &mut self.esc, &mut self.ecoc)?;
        carry_out(&plan, &mut self.esc, &mut self.ecoc);
        self.store.insert(stored);
        Ok(Made::searched(self.alloc, Reply::Inserted, plan.counts))
    }

    // Plans the values of a document, and makes the document.
    fn plan_document(
        &self,
        id: &Value,
        cells: &SentCells,
        nonces: &[[u8; 16]],
        plan: &mut Plan,
    ) -> Result<Stored, NoMemory>
        requires sizes { AllByRecursion (λ cell. IsSizedCell cell.1) cells.now }
        requires nonces { cells_nonces cells.now ≤ length nonces.now }
        ensures { IfOk result (λ stored. CellsPlanned (state_in self.now).index cells.now nonces.now plan.old plan.new stored.cells × (stored ≡ docs.document_of id.now stored.cells)) }
    {
        let cells = index_cells(&self.standing(), cells, nonces, plan)?;
        document_of(self.alloc, id, cells)
    }

    /// Answers the documents that match, or their ids.
    pub(crate) fn find(&self, filter: &SentFilter, ids: bool) -> Result<Made, NoMemory>
        requires { AllByRecursion IsSizedTerm filter.now }
        ensures { IfOk result (IsServed (state_in self.now) (state_in self.now) (Find filter.now ids) []) }
    {
        let mut counts = Counts::new(self.alloc);
        let numbers = self.search(filter, &mut counts)?;
        if ids {
            let ids = self.ids_of(numbers.slice())?;
            return Ok(Made::searched(self.alloc, Reply::Ids(ids), counts));
        }
        let rows = self.rows_of(numbers.slice())?;
        Ok(Made::searched(self.alloc, Reply::Found(rows), counts))
    }

    // Searches for a filter, and answers the numbers of the documents that match, in the order of insertion.
    fn search(&self, filter: &SentFilter, counts: &mut Counts) -> Result<Numbers, NoMemory>
        requires { AllByRecursion IsSizedTerm filter.now }
        ensures { IfOk result (IsSearched self.now filter.now counts.old counts.new) }
    {
        let sets = search_filter(self.alloc, &self.esc, filter, counts)?;
        self.matching(&sets)
    }

    /// The numbers of the documents that meet all conditions, in the order of insertion.
    pub fn matching(&self, sets: &TermSets) -> Result<Numbers, NoMemory>
        requires { AllByRecursion HasIdValue sets.now }
        ensures all { IfOk result (AreMatches self.now.store.documents sets.now) }
        ensures first { IfOk result (λ numbers. FirstMatch self.now.store.documents sets.now (slice_get numbers 0)) }
    {
        let _made = self.store.made();
        self.store.matching(sets)
    }

    // The documents of some numbers, without their tags.
    fn rows_of(&self, numbers: &[u64]) -> Result<Rows, NoMemory>
        ensures { IfOk result (λ rows. rows ≡ map row_of (picked self.now.store.documents numbers.now)) }
    {
        let mut rows = Rows::new(self.alloc);
        for number in numbers {
            if let Some(stored) = self.store.at(*number) {
                rows.push(Row {
                    id: stored.id.copy()?,
                    cells: stored.cells.copy()?,
                })?;
            }
        }
        Ok(rows)
    }

    // The ids of the documents of some numbers.
    fn ids_of(&self, numbers: &[u64]) -> Result<Values, NoMemory>
        ensures { IfOk result (λ ids. ids ≡ map (λ stored. plain stored.id) (picked self.now.store.documents numbers.now)) }
    {
        let mut ids = Values::new(self.alloc);
        for number in numbers {
            if let Some(stored) = self.store.at(*number) {
                ids.push(stored.id.copy()?)?;
            }
        }
        Ok(ids)
    }

    /// Gives the first document that matches new cells, which are indexed.
    pub(crate) fn update(
        &mut self,
        filter: &SentFilter,
        set: &SentCells,
        nonces: &[[u8; 16]],
    ) -> Result<Made, NoMemory>
        requires terms { AllByRecursion IsSizedTerm filter.now }
        requires sizes { AllByRecursion (λ cell. IsSizedCell cell.1) set.now }
        requires nonces { cells_nonces set.now ≤ length nonces.now }
        ensures ok { IfOk result (IsServed (state_in self.old) (state_in self.new) (Update filter.now set.now) nonces.now) }
        ensures err { OnErr result (state_in self.new ≡ state_in self.old) }
        ensures made { AddsOne self.old self.new }
        ensures kept { OnErr result (self.new.store.made ≡ self.old.store.made) }
    {
        let mut counts = Counts::new(self.alloc);
        match self.search(filter, &mut counts)?.slice().first() {
            Some(number) => self.replace(*number, set, nonces, counts),
            None => Ok(Made::searched(self.alloc, Reply::Updated(0), counts)),
        }
    }

    // Gives the document of a number new cells.
    fn replace(
        &mut self,
        number: u64,
        set: &SentCells,
        nonces: &[[u8; 16]],
        counts: Counts,
    ) -> Result<Made, NoMemory>
        requires there { is_some (document_at number self.old.store.documents) ≡ true }
        requires sizes { AllByRecursion (λ cell. IsSizedCell cell.1) set.now }
        requires nonces { cells_nonces set.now ≤ length nonces.now }
        ensures ok { IfOk result (Replaces self.old self.new number set.now nonces.now counts) }
        ensures err { OnErr result (state_in self.new ≡ state_in self.old) }
        ensures made { self.new.store.made ≡ self.old.store.made }
    {
        let mut plan = Plan::new(self.alloc, counts);
        let stored = self.plan_update(number, set, nonces, &mut plan)?;
        self.store.reserve(0, stored.tags.len())?;
        make_room(&plan, &mut self.esc, &mut self.ecoc)?;
        carry_out(&plan, &mut self.esc, &mut self.ecoc);
        self.store.replace(number, stored);
        Ok(Made::searched(self.alloc, Reply::Updated(1), plan.counts))
    }

    // Plans new values of the document of a number, and makes the document with them.
    fn plan_update(
        &self,
        number: u64,
        set: &SentCells,
        nonces: &[[u8; 16]],
        plan: &mut Plan,
    ) -> Result<Stored, NoMemory>
        requires there { is_some (document_at number self.now.store.documents) ≡ true }
        requires sizes { AllByRecursion (λ cell. IsSizedCell cell.1) set.now }
        requires nonces { cells_nonces set.now ≤ length nonces.now }
        ensures { IfOk result (UpdatePlanned self.now number set.now nonces.now plan.old plan.new) }
    {
        let made = index_cells(&self.standing(), set, nonces, plan)?;
        let Some(old) = self.store.at(number) else {
            unreachable!()
        };
        let cells = put_cells(self.alloc, &old.cells, &made)?;
        document_of(self.alloc, &old.id, cells)
    }

    /// Takes the first document that matches out. The index stays.
    pub(crate) fn delete(&mut self, filter: &SentFilter) -> Result<Made, NoMemory>
        requires { AllByRecursion IsSizedTerm filter.now }
        ensures ok { IfOk result (IsServed (state_in self.old) (state_in self.new) (Delete filter.now) []) }
        ensures err { OnErr result (state_in self.new ≡ state_in self.old) }
        ensures made { AddsOne self.old self.new }
        ensures kept { OnErr result (self.new.store.made ≡ self.old.store.made) }
    {
        let mut counts = Counts::new(self.alloc);
        match self.search(filter, &mut counts)?.slice().first() {
            Some(number) => {
                self.store.remove(*number);
                Ok(Made::searched(self.alloc, Reply::Deleted(1), counts))
            }
            None => Ok(Made::searched(self.alloc, Reply::Deleted(0), counts)),
        }
    }
}

// A document of these cells, with the tags of their blocks.
fn document_of(alloc: Global, id: &Value, cells: StoredCells) -> Result<Stored, NoMemory>
    ensures document { IfOk result (λ stored. stored ≡ docs.document_of id.now cells) }
    ensures cells { IfOk result (λ stored. stored.cells ≡ cells) }
{
    let tags = tags_of(alloc, &cells)?;
    Ok(Stored {
        id: id.copy()?,
        cells,
        tags,
    })
}
