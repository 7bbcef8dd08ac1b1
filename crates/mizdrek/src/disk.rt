// Block records: a reader, a writer, and the report of a file.
ghost use Rattle.std.specs.Prelude.{◌≡◌, length};
ghost use Rattle.answer.specs.Answer.{signed_of};
ghost use Rattle.format.specs.Format.{parse};
ghost use Rattle.reader.specs.Read.{read_answer, numbers_after, sides_after, levels_after};
ghost use Rattle.totals.specs.Totals.{report_of};
ghost use Rattle.writer.specs.Write.{write_answer, bytes_after};
ghost use Rattle.mizdrek.specs.Reported.{signed_report, levels_given, sum_given};

#[unsafe(no_mangle)]
pub extern "C" fn mizdrek_read_records(
    bytes: &[u8],
    numbers: &mut [u32],
    sides: &mut [usize],
    levels: &mut [i32],
) -> i64
    ensures value { result ≡ signed_of (read_answer (parse bytes.now) (length numbers.old) (length sides.old) (length levels.old)) }
    ensures numbers_after { numbers.new ≡ numbers_after bytes.now numbers.old sides.old levels.old }
    ensures sides_after { sides.new ≡ sides_after bytes.now numbers.old sides.old levels.old }
    ensures levels_after { levels.new ≡ levels_after bytes.now numbers.old sides.old levels.old }
{
    let read = reader::read_records(bytes, numbers, sides, levels);
    answer::signed(read)
}

#[unsafe(no_mangle)]
pub extern "C" fn mizdrek_write_records(
    count: usize,
    numbers: &[u32],
    sides: &[usize],
    levels: &[i32],
    bytes: &mut [u8],
) -> i64
    ensures value { result ≡ signed_of (write_answer count numbers.now sides.now levels.now (length bytes.old)) }
    ensures bytes_after { bytes.new ≡ bytes_after count numbers.now sides.now levels.now bytes.old }
{
    let written = writer::write_records(count, numbers, sides, levels, bytes);
    answer::signed(written)
}

// Answers the blocks of a record file, and puts its nonzero levels and the sum of their magnitudes into the numbers lent; a refused call writes
// neither.
#[unsafe(no_mangle)]
pub extern "C" fn mizdrek_report(bytes: &[u8], levels: &mut u64, magnitude: &mut u64) -> i64
    ensures value { result ≡ signed_report (report_of bytes.now) }
    ensures levels_after { levels.new ≡ levels_given (report_of bytes.now) levels.old }
    ensures magnitude_after { magnitude.new ≡ sum_given (report_of bytes.now) magnitude.old }
{
    match totals::add_up(bytes) {
        Err(why) => answer::signed(Err(why)),
        Ok(t) => {
            *levels = t.levels;
            *magnitude = t.magnitude;
            answer::signed(Ok(t.blocks))
        }
    }
}
