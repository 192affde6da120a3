// Decimal text, written into a slice. What has no room there is left out; each function says how long the
// whole text is.
ghost use Rattle.std.specs.Prelude.{◌≡◌, ◌+◌, ◌≤◌, set};
ghost use Rattle.fault_list.specs.Inner.Put.{field_length, number_length, put, put_at};
ghost use Rattle.fault_list.specs.Text.{decimal, field};

// Puts a byte so many places behind a place. No slice reaches as far as a sum that would wrap.
fn store_behind(out: &mut [u8], place: usize, offset: usize, value: u8)
    ensures { out.new ≡ set out.old (place + offset) value }
{
    values::store(out, place.saturating_add(offset), value);
}

// Writes a number in decimal, from a place on, and says how long it is. The digits are made by hand: what
// `write!` promises holds only where it succeeds, and nothing says that it does, into a short slice or any.
#[tactic(auto, using(crate::proofs::TextLaws::decimal_one))]
pub fn put_decimal(out: &mut [u8], place: usize, number: u32) -> usize
    ensures text_put { put result out.new ≡ put_at out.old place (decimal number) }
    ensures at_most { result ≤ number_length }
{
    if number < 10 {
        values::store(out, place, b'0' + number as u8);
        return 1;
    }
    let length = put_decimal(out, place, number / 10);
    store_behind(out, place, length, b'0' + (number % 10) as u8);
    length + 1
}

// Writes a number and the byte after it, and says how long they are.
pub fn put_field(out: &mut [u8], place: usize, number: u32, after: u8) -> usize
    ensures text_put { put result out.new ≡ put_at out.old place (field number after) }
    ensures at_most { result ≤ field_length }
{
    let length = put_decimal(out, place, number);
    store_behind(out, place, length, after);
    length + 1
}

// Writes some text, and says how long it is.
pub fn put_text(out: &mut [u8], place: usize, text: &[u8]) -> usize
    ensures { put result out.new ≡ put_at out.old place text.now }
{
    values::put(out, place, text);
    text.len()
}
