// From a listing to a schedule, from bytes to reply. The text layer is used by its contracts alone.
#![tactic(auto)]

ghost use Rattle.listings.specs.Held.{found_scales};
ghost use Rattle.tables.specs.Files.{listing_lines};
ghost use Rattle.rules.specs.Scales.{ScalesLeft, DownscalesBelow};
ghost use Rattle.replies.specs.Told.{reply_to};
ghost use Rattle.services.specs.Outcomes.{Replied};
ghost use Rattle.services.specs.Calls.{converted_outcome, from_rising_outcome};

use replies::FileRefusal;
use services::Reply;
use tables::files::ListingTable;

// The schedule of a listing that keeps its rules, with the scales that were found of its lines.
#[tactic(auto, using(crate::proofs::Steps::schedule_needs, crate::proofs::Steps::schedule_returns))]
fn put_schedule(
    out: &mut [u8],
    listing: &ListingTable,
    scales: &[u16; 1792],
) -> Result<u32, FileRefusal>
    requires downscales_below { DownscalesBelow listing.now.header (listing_lines listing.now) scales.now }
    requires scales_left { ScalesLeft listing.now.header (listing_lines listing.now) scales.now }
    ensures { Replied (converted_outcome listing.now.header (found_scales listing.now.header (listing_lines listing.now)) (listing_lines listing.now)) out.old (reply_to result) out.new }
{
    let mut schedule = [tables::FREE; 1792];
    let size = listingtable::convert(listing, scales, &mut schedule)?;
    replies::put_text(out, b"schedule", listing.header, &schedule, size)
}

// The schedule of a listing. All its lines are held to the rules before one is converted, and nothing is written before the text is known to fit.
#[tactic(auto, using(crate::proofs::Steps::step_needs, crate::proofs::Steps::step_returns))]
fn converted(listing: &[u8], out: &mut [u8]) -> Result<u32, FileRefusal>
    ensures { Replied (from_rising_outcome listing.now) out.old (reply_to result) out.new }
{
    let mut records = [tables::FREE; 1792];
    let table = reader::lend_listing(listing, &mut records)?;
    let mut scales = [0u16; 1792];
    rules::rules_answer(&table, &mut scales)?;
    put_schedule(out, &table, &scales)
}

// Makes a schedule of a listing.
pub fn from_rising(listing: &[u8], out: &mut [u8]) -> Reply
    ensures { Replied (from_rising_outcome listing.now) out.old result out.new }
{
    replies::reply(converted(listing, out))
}
