// Reading records.
ghost use Rattle.std.specs.Prelude.{◌≡◌, cond, ◌+◌, ◌*◌, ◌%◌, ◌≤◌, eqb, pos, [], ◌∷◌, length};
ghost use Rattle.laws.specs.Store.{tab, over};
ghost use Rattle.answer.specs.Answer.{told, answers};
ghost use Rattle.format.specs.Pieces.{of_word, number_at};
ghost use Rattle.format.specs.Format.{width_in, height_in, places_in, count_in, list_in, level_in, length_in, parse};
ghost use Rattle.look.specs.Look.{places_of, counted, list_found};
ghost use Rattle.reader.specs.Read.{numbers_of, sides_of, levels_of, read_answer, numbers_after, sides_after, levels_after};

use answer::{Outcome, Refusal};
use look::Whole;

// The level whose four bytes begin at a place where its bit is 1, and 0 where it is 0. Four bytes are read either way and multiplied by the
// bit, so that there is no branch: near the end of the bytes, the last four.
#[inline(always)]
fn level_if(s: &[u8], bit: u8, at: usize) -> i32
    requires { (bit ≤ 1) × (4 ≤ length s.now) × (at + 4 * bit ≤ length s.now) }
    ensures { result ≡ cond (eqb bit 1) (of_word (number_at s.now at)) (pos 0) }
{
    let from = at.min(s.len() - 4);
    look::of_word(look::number_at(s, from) * u32::from(bit))
}

// The levels of the eight places from q on; the first of them that is listed begins at a place of the bytes. Gives back where the next begins.
#[inline(always)]
fn lay_eight(whole: &Whole<'_>, q: usize, at: usize, levels: &mut [i32]) -> usize
    requires eight { (q % 8 ≡ 0) × (q + 8 ≤ places_in whole.now.bytes.now) × (length levels.old ≡ 8) }
    requires listed { at ≡ list_in whole.now.bytes.now + 4 * count_in whole.now.bytes.now q }
    ensures value { result ≡ list_in whole.now.bytes.now + 4 * count_in whole.now.bytes.now (q + 8) }
    ensures levels_after { levels.new ≡ tab 8 (λ i. level_in whole.now.bytes.now (q + i)) }
{
    let s = whole.bytes;
    let bits = s[5 + q / 8];
    if bits == 0 {
        levels.fill(0);
        return at;
    }
    let mut from = at;
    for i in 0..8 {
        let bit = (bits >> i) % 2;
        levels[i] = level_if(s, bit, from);
        from += 4 * (bit as usize);
    }
    from
}

// The levels of a record. Gives back its length.
fn lay_levels(whole: &Whole<'_>, levels: &mut [i32]) -> usize
    requires { length levels.old ≡ places_in whole.now.bytes.now }
    ensures value { result ≡ length_in whole.now.bytes.now }
    ensures levels_after { levels.new ≡ tab (places_in whole.now.bytes.now) (level_in whole.now.bytes.now) }
{
    let bytes = levels.len() / 8;
    let mut at = 5 + bytes;
    for j in 0..bytes {
        let q = 8 * j;
        at = lay_eight(whole, q, at, &mut levels[q..q + 8]);
    }
    at
}

// A block's number, sides and levels. Gives back its record's length.
fn put_block(whole: &Whole<'_>, number: &mut u32, sides: &mut [usize], levels: &mut [i32]) -> usize
    requires { (length sides.old ≡ 2) × (length levels.old ≡ places_in whole.now.bytes.now) }
    ensures value { result ≡ length_in whole.now.bytes.now }
    ensures number_after { number.new ≡ number_at whole.now.bytes.now 0 }
    ensures sides_after { sides.new ≡ width_in whole.now.bytes.now ∷ height_in whole.now.bytes.now ∷ [] }
    ensures levels_after { levels.new ≡ tab (places_in whole.now.bytes.now) (level_in whole.now.bytes.now) }
{
    let size = whole.size();
    *number = whole.number();
    sides.copy_from_slice(&[size.w, size.h]);
    lay_levels(whole, levels)
}

// The blocks of bytes that are right, put into the lent buffers, of which the numbers' has a place for each.
fn fill(bytes: &[u8], numbers: &mut [u32], sides: &mut [usize], levels: &mut [i32])
    requires bytes_right { counted (parse bytes.now) ≡ answers (length numbers.old) }
    requires room { (2 * length numbers.old ≤ length sides.old) × (places_of (list_found (parse bytes.now)) ≤ length levels.old) }
    ensures numbers_after { numbers.new ≡ numbers_of (list_found (parse bytes.now)) }
    ensures sides_after { sides.new ≡ over (sides_of (list_found (parse bytes.now))) sides.old }
    ensures levels_after { levels.new ≡ over (levels_of (list_found (parse bytes.now))) levels.old }
{
    let mut at = 0;
    let mut place = 0;
    for k in 0..numbers.len() {
        let whole = Whole {
            bytes: &bytes[at..],
        };
        let end = place + whole.places();
        at += put_block(
            &whole,
            &mut numbers[k],
            &mut sides[2 * k..2 * k + 2],
            &mut levels[place..end],
        );
        place = end;
    }
}

// The blocks of bytes, put into the lent buffers: their numbers, their sides, w and then h, and their levels. Answers how many there are.
pub fn read_records(
    bytes: &[u8],
    numbers: &mut [u32],
    sides: &mut [usize],
    levels: &mut [i32],
) -> Outcome
    ensures result_value { told result ≡ read_answer (parse bytes.now) (length numbers.old) (length sides.old) (length levels.old) }
    ensures numbers_after { numbers.new ≡ numbers_after bytes.now numbers.old sides.old levels.old }
    ensures sides_after { sides.new ≡ sides_after bytes.now numbers.old sides.old levels.old }
    ensures levels_after { levels.new ≡ levels_after bytes.now numbers.old sides.old levels.old }
{
    let checked = look::check_records(bytes)?;
    let count = checked.blocks;
    if (numbers.len() < count) | ((sides.len() / 2 < count) | (levels.len() < checked.places)) {
        return Err(Refusal::ShortBuffer);
    }
    fill(bytes, &mut numbers[..count], sides, levels);
    Ok(count)
}
