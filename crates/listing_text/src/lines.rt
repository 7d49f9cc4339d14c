// The lines of a listing, put behind the text so far.
ghost use Rattle.std.specs.Prelude.{◌+◌, ◌≤◌, ◌<◌, length};
ghost use Rattle.sheet.specs.Fields.{rows_of};
ghost use Rattle.plan.specs.Plan.{round_record_at};
ghost use Rattle.listing_text.specs.Put.{HasRoom, Appends};
ghost use Rattle.listing_text.specs.Listing.{field, word, figures_text, header_line, round_line, stop_line, refused_text};
ghost use Rattle.listing_text.specs.Listable.{Listable};

use crate::text::Text;

fn put_field(text: &mut Text<'_>, name: &[u8], n: u32)
    requires { HasRoom text.old (field name.now n) }
    ensures { Appends text.old text.new (field name.now n) }
{
    text.put_words(name);
    text.put_decimal(n);
}

fn put_word(text: &mut Text<'_>, bits: u64)
    requires { HasRoom text.old (word bits) }
    ensures { Appends text.old text.new (word bits) }
{
    text.put_byte(b' ');
    text.put_hex(16, bits);
}

// The two words that end a line, from their place in the plan.
fn put_figures(text: &mut Text<'_>, plan: &[u8], place: usize)
    requires place_in_bounds { place + 16 ≤ length plan.now }
    requires text_room { HasRoom text.old (figures_text plan.now place) }
    ensures { Appends text.old text.new (figures_text plan.now place) }
{
    put_word(text, wire::u64_at(plan, place));
    put_word(text, wire::u64_at(plan, place + 8));
    text.put_byte(b'\n');
}

pub fn put_header_line(text: &mut Text<'_>, plan: &[u8])
    requires in_bounds { 16 ≤ length plan.now }
    requires text_room { HasRoom text.old (header_line plan.now) }
    ensures { Appends text.old text.new (header_line plan.now) }
{
    put_field(text, b"rounds ", wire::u16_at(plan, 0) as u32);
    put_field(text, b" aside ", wire::u16_at(plan, 2) as u32);
    text.put_byte(b'\n');
}

// The round counted k from 0.
pub fn put_round_line(text: &mut Text<'_>, plan: &[u8], k: usize)
    requires k_in_bounds { round_record_at k + 56 ≤ length plan.now }
    requires text_room { HasRoom text.old (round_line plan.now k) }
    ensures { Appends text.old text.new (round_line plan.now k) }
{
    let place = plan::round_place(k);
    put_field(text, b"round ", wire::u32_at(plan, place));
    put_field(text, b" first ", wire::u16_at(plan, place + 8) as u32);
    put_field(text, b" load ", wire::u32_at(plan, place + 4));
    put_field(text, b" rest ", wire::u16_at(plan, place + 10) as u32);
    put_figures(text, plan, place + 16);
}

pub fn put_stop_line(text: &mut Text<'_>, sheet: &[u8], plan: &[u8], row: u16)
    requires listable { Listable sheet.now plan.now }
    requires row_bound { row < rows_of sheet.now }
    requires text_room { HasRoom text.old (stop_line plan.now (rows_of sheet.now) row) }
    ensures { Appends text.old text.new (stop_line plan.now (rows_of sheet.now) row) }
{
    let place = plan::visit_place(sheet::rows(sheet), row as usize);
    put_field(text, b"stop ", row as u32);
    put_field(text, b" next ", wire::u16_at(plan, place) as u32);
    put_field(text, b" load ", wire::u32_at(plan, place + 4));
    put_figures(text, plan, place + 8);
}

// The number is what the text shows.
pub fn put_refused(text: &mut Text<'_>, number: u32)
    requires { HasRoom text.old (refused_text number) }
    ensures { Appends text.old text.new (refused_text number) }
{
    put_field(text, b"refused ", number);
    text.put_byte(b'\n');
}
