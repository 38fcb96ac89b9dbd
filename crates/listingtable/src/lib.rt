// A listing that keeps its rules, as a table holds it, to the table of the schedule that it becomes.
#![tactic(auto)]

ghost use Rattle.std.specs.Prelude.{◌≡◌, ◌+◌, ◌-◌, ◌<◌, T, get_or};
ghost use Rattle.rows.specs.Rows.{place_of};
ghost use Rattle.model.specs.declared.Fault.TheVariants.{TooManyLines};
ghost use Rattle.model.specs.declared.Line.TheVariants.{Free};
ghost use Rattle.model.specs.Scales.{header_in_range};
ghost use Rattle.listings.specs.Held.{is_downscale};
ghost use Rattle.tables.specs.Records.{line_of, lines_of, free_records};
ghost use Rattle.tables.specs.Files.{listing_lines};
ghost use Rattle.rules.specs.Scales.{DownscalesBelow};
ghost use Rattle.listingtable.specs.Conversion.{LineReady, becomes_lines, converted_by, ConvertedTo};

use model::{Fault, Header, Refusal, Word};
use tables::Record;
use tables::files::ListingTable;

// What a line becomes: one line, by its record; or, of a `ds`, an upscale of this value by these bits and a rescale of that.
#[derive(Clone, Copy)]
enum Becomes {
    One(Record),
    Two { of: u16, bits: u16 },
}

// Whether a record holds a `ds`: a rescale by 0 levels.
#[tactic(auto, unfolding(tables::specs::Records::line_of))]
fn is_downscale(r: Record) -> bool
    ensures { result ≡ is_downscale (line_of r) }
{
    r.word == Word::Rs && r.second == 0
}

// By how many bits a scale is raised to W + F.
fn bits_below(header: Header, scale: u16) -> u16
    requires t { T (header_in_range header) }
    requires scale_bound { scale < header.waterline + header.factor }
    ensures { result ≡ header.waterline + header.factor - scale }
{
    (header.waterline + header.factor - (scale as u32)) as u16
}

// Line i of a listing; the names are the schedule's lines that stand for the lines before it.
fn convert_line(
    listing: &ListingTable,
    i: usize,
    scales: &[u16; 1792],
    names: &[u16; 1792],
) -> Becomes
    requires { LineReady listing.now.header listing.now.records.now scales.now i }
    ensures { becomes_lines result ≡ converted_by listing.now.header scales.now names.now (get_or (lines_of listing.now.records.now) i Free) }
{
    let record = listing.records[i];
    let a = operands::first_of(record);
    let b = operands::second_of(record);
    let first = names[a as usize];
    if is_downscale(record) {
        let scale = scales[a as usize];
        let bits = bits_below(listing.header, scale);
        return Becomes::Two { of: first, bits };
    }
    let second = names[b as usize];
    Becomes::One(operands::renamed(record, first, second))
}

// Line i of a listing no longer fits.
fn full_at(i: usize) -> Refusal
    requires { i < 1792 }
    ensures { result ≡ record { fault = TooManyLines; place = place_of i } }
{
    Refusal {
        fault: Fault::TooManyLines,
        place: (i as u32) + 2,
    }
}

// The schedule's lines, into records that are free, and how many they are; or the listing's first line that no longer fits. The scales are those
// of the listing's lines.
#[tactic(auto, using(crate::proofs::Converting::converting_laws, crate::proofs::Converting::after_one))]
pub fn convert(
    listing: &ListingTable,
    scales: &[u16; 1792],
    schedule: &mut [Record],
) -> Result<usize, Refusal>
    requires downscales_below { DownscalesBelow listing.now.header (listing_lines listing.now) scales.now }
    requires schedule_value { schedule.old ≡ free_records }
    ensures { ConvertedTo listing.now.header (λ a. get_or scales.now a 0) (listing_lines listing.now) result schedule.new }
{
    let mut names = [0u16; 1792];
    let mut at: usize = 0;
    for i in 0..listing.count {
        match convert_line(listing, i, scales, &names) {
            Becomes::One(held) => {
                if 1792 <= at {
                    return Err(full_at(i));
                }
                schedule[at] = held;
                names[i] = at as u16;
                at += 1;
            }
            Becomes::Two { of, bits } => {
                if 1791 <= at {
                    return Err(full_at(i));
                }
                schedule[at] = tables::record_with(Word::Us, of, bits, 0);
                schedule[at + 1] = tables::record_with(Word::Rs, at as u16, 1, 0);
                names[i] = (at as u16) + 1;
                at += 2;
            }
        }
    }
    Ok(at)
}
