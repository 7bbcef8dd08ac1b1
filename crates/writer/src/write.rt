// Writing records. A record's levels are written from the last to the first: each puts four bytes before those that follow it, and a zero is
// counted as none of them, so that there is no branch. What a zero spoils is written over by a level before it, or by the record's head, which
// comes last.
ghost use Rattle.std.specs.Prelude.{◌≡◌, true, cond, ◌++◌, ◌+◌, ◌-◌, ◌*◌, ◌/◌, ◌%◌, ◌≤◌, ◌<◌, length, get_or, take, drop};
ghost use Rattle.laws.specs.Store.{over};
ghost use Rattle.laws.specs.Table.{every};
ghost use Rattle.answer.specs.Answer.{told};
ghost use Rattle.sizes.specs.Size.{is_side};
ghost use Rattle.format.specs.Pieces.{side_byte, packed, stands, map_of, bytes_for, listed};
ghost use Rattle.format.specs.Format.{record_of, bytes_of};
ghost use Rattle.writer.specs.Write.{level_at, block_of, place_at, blocks_in, length_to, write_answer, bytes_after};

use super::admit;
use answer::Outcome;
use sizes::Size;

// A level's bytes put before a place. Gives back where they begin; where the level is 0, there are none, and the four bytes are spoilt.
#[inline(always)]
fn put_level(l: i32, out: &mut [u8], end: usize) -> usize
    requires { (4 ≤ end) × (end ≤ length out.old) }
    ensures starts { result + length (bytes_for l) ≡ end }
    ensures out_unchanged { take (end - 4) out.new ≡ take (end - 4) out.old }
    ensures out_after { drop result out.new ≡ bytes_for l ++ drop end out.old }
{
    out[end - 4..end].copy_from_slice(&l.to_le_bytes());
    end - 4 * usize::from(l != 0)
}

// 1 where a level's bit stands.
#[inline(always)]
fn bit_of(levels: &[i32], p: usize) -> u8
    requires { p < length levels.now }
    ensures { (result ≡ cond (stands (level_at levels.now p)) 1 0) × (result ≤ 1) }
{
    u8::from(levels[p] != 0)
}

// The byte of the map for eight levels.
#[inline(always)]
fn map_byte(levels: &[i32]) -> u8
    requires { length levels.now ≡ 8 }
    ensures { result ≡ packed (λ i. stands (level_at levels.now i)) }
{
    let low = bit_of(levels, 0)
        + 2 * bit_of(levels, 1)
        + 4 * bit_of(levels, 2)
        + 8 * bit_of(levels, 3);
    let high = 16 * bit_of(levels, 4)
        + 32 * bit_of(levels, 5)
        + 64 * bit_of(levels, 6)
        + 128 * bit_of(levels, 7);
    low + high
}

// The bytes of eight levels, put before a place. Gives back where they begin.
#[inline(always)]
fn put_eight(levels: &[i32], out: &mut [u8], end: usize) -> usize
    requires { (length levels.now ≡ 8) × (4 + length (listed 8 (level_at levels.now)) ≤ end) × (end ≤ length out.old) }
    ensures starts { result + length (listed 8 (level_at levels.now)) ≡ end }
    ensures out_unchanged { take (result - 4) out.new ≡ take (result - 4) out.old }
    ensures out_after { drop result out.new ≡ listed 8 (level_at levels.now) ++ drop end out.old }
{
    if map_byte(levels) == 0 {
        return end;
    }
    let mut to = end;
    for i in (0..8).rev() {
        to = put_level(levels[i], out, to);
    }
    to
}

// The same of any number of eights.
fn put_listed(levels: &[i32], out: &mut [u8], end: usize) -> usize
    requires { (length levels.now % 8 ≡ 0) × (4 + length (listed (length levels.now) (level_at levels.now)) ≤ end) × (end ≤ length out.old) }
    ensures starts { result + length (listed (length levels.now) (level_at levels.now)) ≡ end }
    ensures out_unchanged { take (result - 4) out.new ≡ take (result - 4) out.old }
    ensures out_after { drop result out.new ≡ listed (length levels.now) (level_at levels.now) ++ drop end out.old }
{
    let mut to = end;
    for j in (0..levels.len() / 8).rev() {
        to = put_eight(&levels[8 * j..8 * j + 8], out, to);
    }
    to
}

// The map of some levels.
fn put_map(levels: &[i32], out: &mut [u8])
    requires { length levels.now ≡ 8 * length out.old }
    ensures { out.new ≡ map_of (length levels.now) (level_at levels.now) }
{
    for j in 0..out.len() {
        out[j] = map_byte(&levels[8 * j..8 * j + 8]);
    }
}

// The side byte of a block.
fn side_byte(size: Size) -> u8
    ensures { result ≡ side_byte size.w size.h }
{
    (sizes::log2(size.w) - 2 + 4 * (sizes::log2(size.h) - 2)) as u8
}

// A block's record, put at the front of the bytes. Gives back its length.
fn put_record(number: u32, size: Size, levels: &[i32], out: &mut [u8]) -> usize
    requires block_right { length levels.now ≡ size.w * size.h }
    requires room { length (record_of (block_of number size.w size.h levels.now)) ≤ length out.old }
    ensures value { result ≡ length (record_of (block_of number size.w size.h levels.now)) }
    ensures out_after { out.new ≡ over (record_of (block_of number size.w size.h levels.now)) out.old }
{
    let list = 5 + levels.len() / 8;
    let end = list + admit::listed_length(levels);
    put_listed(levels, out, end);
    out[..4].copy_from_slice(&number.to_le_bytes());
    out[4] = side_byte(size);
    put_map(levels, &mut out[5..list]);
    end
}

// The records of blocks that are right and have room; how many blocks is C's own number, beside its buffers. Gives back how many bytes there are.
fn put_records(
    count: usize,
    numbers: &[u32],
    sides: &[usize],
    levels: &[i32],
    out: &mut [u8],
) -> usize
    requires blocks_lent { (count ≤ length numbers.now) × (2 * count ≤ length sides.now) × (every (2 * count) (λ i. is_side (get_or sides.now i 0)) ≡ true) }
    requires room { (place_at sides.now count ≤ length levels.now) × (length_to sides.now levels.now count ≤ length out.old) }
    ensures value { result ≡ length (bytes_of (blocks_in count numbers.now sides.now levels.now)) }
    ensures out_after { out.new ≡ over (bytes_of (blocks_in count numbers.now sides.now levels.now)) out.old }
{
    let mut place = 0;
    let mut at = 0;
    for k in 0..count {
        let size = Size {
            w: sides[2 * k],
            h: sides[2 * k + 1],
        };
        let end = place + size.places();
        at += put_record(numbers[k], size, &levels[place..end], &mut out[at..]);
        place = end;
    }
    at
}

// The records of count blocks: their numbers, their sides, w and then h, and their levels are lent. Answers the bytes written.
pub fn write_records(
    count: usize,
    numbers: &[u32],
    sides: &[usize],
    levels: &[i32],
    out: &mut [u8],
) -> Outcome
    ensures result_value { told result ≡ write_answer count numbers.now sides.now levels.now (length out.old) }
    ensures out_after { out.new ≡ bytes_after count numbers.now sides.now levels.now out.old }
{
    admit::admit(count, numbers, sides, levels, out.len())?;
    let length = put_records(count, numbers, sides, levels, out);
    Ok(length)
}
