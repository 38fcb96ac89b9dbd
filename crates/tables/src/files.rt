// Files that were read, as their tables hold them: of a circuit, of a schedule and of a listing. The records past the lines are free. A type parameter for
// the grammar would want a marker type and a trait for each of the three, which is no plainer.
ghost use Rattle.model.specs.declared.Grammar.TheVariants.{Circuit, Schedule};
ghost use Rattle.text.specs.Tables.{TableFormed};
ghost use Rattle.listings.specs.Held.{counted_table};
ghost use Rattle.tables.specs.Records.{held};

use crate::Record;
use model::Header;

// A circuit: its lines are the first `count` records.
#[derive(Clone, Copy)]
pub struct CircuitTable<'a> {
    pub header: Header,
    pub records: &'a [Record],
    pub count: usize,
    ghost formed: { TableFormed Circuit (held header records.now count) },
}

// The same of a schedule.
#[derive(Clone, Copy)]
pub struct ScheduleTable<'a> {
    pub header: Header,
    pub records: &'a [Record],
    pub count: usize,
    ghost formed: { TableFormed Schedule (held header records.now count) },
}

// The same of a listing, whose levels are held counted down and a `ds` as a rescale by 0: with 1 in place of that 0 it is a schedule's.
#[derive(Clone, Copy)]
pub struct ListingTable<'a> {
    pub header: Header,
    pub records: &'a [Record],
    pub count: usize,
    ghost formed: { TableFormed Schedule (counted_table (held header records.now count)) },
}
