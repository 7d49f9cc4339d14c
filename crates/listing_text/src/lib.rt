// The listing of a plan, put into a buffer.
#![tactic(auto)]

ghost use Rattle.std.specs.Prelude.{◌≡◌, ◌≤◌, ◌<◌, length};
ghost use Rattle.lists.specs.Once.{Stops};
ghost use Rattle.sheet.specs.Fields.{rows_of};
ghost use Rattle.sheet.specs.Told.{told};
ghost use Rattle.plan.specs.Read.{first_stop_at, chain_of, read_plan};
ghost use Rattle.listing_text.specs.Text.{concatenated};
ghost use Rattle.listing_text.specs.Put.{Put, HasRoom, Appends};
ghost use Rattle.listing_text.specs.Listing.{stop_lines, round_text, round_texts, listing_of, refused_text, listing_refusal};
ghost use Rattle.listing_text.specs.Listable.{Listable};

mod lines;
mod text;

use sheet::refusal::Refusal;
use text::Text;

// No listing is longer. A function asks for a slice that is as long or longer, since an array would ask for the very length.
pub const LISTING_BYTES: usize = 8192;

// The most rows that it lists.
const LISTING_ROWS: usize = 48;

// The stops of a chain, by the link to its first.
fn put_chain(text: &mut Text<'_>, sheet: &[u8], plan: &[u8], first: u16)
    requires listable { Listable sheet.now plan.now }
    requires stops { Stops (rows_of sheet.now) (chain_of sheet.now plan.now first) }
    requires text_room { HasRoom text.old (concatenated (stop_lines plan.now (rows_of sheet.now) (chain_of sheet.now plan.now first))) }
    ensures { Appends text.old text.new (concatenated (stop_lines plan.now (rows_of sheet.now) (chain_of sheet.now plan.now first))) }
{
    let mut row = first;
    let mut links = sheet::rows(sheet);
    // A chain is no slice to walk: where it goes on is told by the row's record. `links` is how many may follow.
    while row != 0 {
        lines::put_stop_line(text, sheet, plan, row);
        if links == 0 {
            return;
        }
        links -= 1;
        row = wire::u16_at(plan, plan::visit_place(sheet::rows(sheet), row as usize));
    }
}

// The round counted k from 0, and its stops.
fn put_round(text: &mut Text<'_>, sheet: &[u8], plan: &[u8], k: usize)
    requires listable { Listable sheet.now plan.now }
    requires k_bound { k < rows_of sheet.now }
    requires stops { Stops (rows_of sheet.now) (chain_of sheet.now plan.now (first_stop_at plan.now k)) }
    requires text_room { HasRoom text.old (round_text plan.now (rows_of sheet.now) k (chain_of sheet.now plan.now (first_stop_at plan.now k))) }
    ensures { Appends text.old text.new (round_text plan.now (rows_of sheet.now) k (chain_of sheet.now plan.now (first_stop_at plan.now k))) }
{
    lines::put_round_line(text, plan, k);
    let first = wire::u16_at(plan, plan::round_place(k) + 8);
    put_chain(text, sheet, plan, first);
}

fn put_rounds(text: &mut Text<'_>, sheet: &[u8], plan: &[u8])
    requires listable { Listable sheet.now plan.now }
    requires text_room { HasRoom text.old (concatenated (round_texts plan.now (rows_of sheet.now) 0 (read_plan sheet.now plan.now).rounds)) }
    ensures { Appends text.old text.new (concatenated (round_texts plan.now (rows_of sheet.now) 0 (read_plan sheet.now plan.now).rounds)) }
{
    let rounds = wire::u16_at(plan, 0) as usize;
    // Over numbers: the rounds stand in the plan's bytes.
    for k in 0..rounds {
        put_round(text, sheet, plan, k);
    }
}

fn put_listing(text: &mut Text<'_>, sheet: &[u8], plan: &[u8])
    requires listable { Listable sheet.now plan.now }
    requires text_room { HasRoom text.old (listing_of sheet.now plan.now) }
    ensures { Appends text.old text.new (listing_of sheet.now plan.now) }
{
    lines::put_header_line(text, plan);
    put_rounds(text, sheet, plan);
    put_chain(text, sheet, plan, wire::u16_at(plan, 2));
}

// The listing of a plan of the sheet, from the buffer's start on.
pub fn write_listing(out: &mut [u8], sheet: &[u8], plan: &[u8]) -> usize
    requires listable { Listable sheet.now plan.now }
    requires in_bounds { 8192 ≤ length out.old }
    ensures { Put out.old out.new 0 (listing_of sheet.now plan.now) result }
{
    let mut text = Text { out, end: 0 };
    put_listing(&mut text, sheet, plan);
    text.end
}

pub fn write_refused(out: &mut [u8], number: u32) -> usize
    requires { 8192 ≤ length out.old }
    ensures { Put out.old out.new 0 (refused_text number) result }
{
    let mut text = Text { out, end: 0 };
    lines::put_refused(&mut text, number);
    text.end
}

// The refusal of a sheet before it is planned. Counts: it has too many rows for a listing.
#[tactic(auto, unfolding(crate::specs::Listing::listing_refusal))]
pub fn early_refusal(sheet: &[u8]) -> Result<(), Refusal>
    ensures { told result ≡ listing_refusal sheet.now 0 }
{
    if !sheet_refusal::header_right(sheet) {
        return Err(Refusal::Header);
    }
    if LISTING_ROWS < sheet::rows(sheet) {
        return Err(Refusal::Counts);
    }
    Ok(())
}
