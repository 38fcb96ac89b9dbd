// The rules of a schedule's lines, or of a listing's as a table holds them: the first line that breaks one, and which.
#![tactic(auto)]

ghost use Rattle.std.specs.Prelude.{◌≡◌, IfOk};
ghost use Rattle.model.specs.Refusals.{verdict_answer};
ghost use Rattle.listings.specs.Held.{held_answer};
ghost use Rattle.tables.specs.Files.{schedule_held, listing_lines, listing_held};
ghost use Rattle.rules.specs.Scales.{no_scales, ScalesLeft};

use bounds::Held;
use model::Refusal;
use tables::files::{ListingTable, ScheduleTable};

// A schedule's table is a listing's.
pub fn listing_of<'a>(schedule: &ScheduleTable<'a>) -> ListingTable<'a>
    ensures { listing_held result ≡ schedule_held schedule.now }
{
    ListingTable {
        header: schedule.header,
        records: schedule.records,
        count: schedule.count,
    }
}

// The first line that breaks a rule, and which. Where none does, the scale that each line has is left behind; a bare constant leaves 0.
#[tactic(auto, using(crate::proofs::Checking::loop_laws))]
pub fn rules_answer(listing: &ListingTable, scales: &mut [u16; 1792]) -> Result<(), Refusal>
    requires { scales.old ≡ no_scales }
    ensures value { verdict_answer result ≡ held_answer listing.now.header (listing_lines listing.now) }
    ensures scales { IfOk result (λ u. ScalesLeft listing.now.header (listing_lines listing.now) scales.new) }
{
    let mut levels = [0u16; 1792];
    for i in 0..listing.count {
        let line = tables::line_at(listing.records, i);
        let a = operands::first_operand(line) as usize;
        let b = operands::second_operand(line) as usize;
        let first = Held {
            scale: scales[a],
            level: levels[a],
        };
        let second = Held {
            scale: scales[b],
            level: levels[b],
        };
        match linerules::ruled(listing.header, line, first, second) {
            Err(fault) => {
                return Err(Refusal {
                    fault,
                    place: (i as u32) + 2,
                });
            }
            Ok(held) => {
                scales[i] = held.scale;
                levels[i] = held.level;
            }
        }
    }
    Ok(())
}
