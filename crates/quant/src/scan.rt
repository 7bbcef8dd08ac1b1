// The levels and magnitudes of a scan. The coefficients that the scan names are laid side by side first, so that the tests and the
// quantizing that follow work on several at a time.
ghost use Rattle.std.specs.Prelude.{◌≡◌, true, false, cond, ℕ, ◌≤◌, ◌<◌, leb, ltb, pos, length, get_or, MatchResult};
ghost use Rattle.answer.specs.Answer.{told, answers, refuses, number_of, lowest, after};
ghost use Rattle.answer.specs.declared.Refusal.TheVariants.{ScanRange};
ghost use Rattle.laws.specs.Store.{laid};
ghost use Rattle.laws.specs.Table.{every};
ghost use Rattle.quant.specs.Level.{IsScale, level_by, magnitude_by};
ghost use Rattle.quant.specs.Settings.{coefficient_ok};
ghost use Rattle.quant.specs.Scan.{meant, named_at, is_bad_scan, first_refusals, named_answer, scanned, scan_answer, levels_after, magnitudes_after};

use super::Settings;
use super::level::{Scale, coefficients_ok};
use super::reading::Reading;
use answer::{Outcome, Refusal};

// How many of room places an entry of 16 bits can mean.
fn reach(room: usize) -> u32
    ensures { result ≡ cond (leb room 65536) room 65536 }
{
    room.min(65536) as u32
}

// The place of each entry, and whether each is below limit.
fn find_places(reading: Reading, limit: u32, scan: &[u16], places: &mut [u16]) -> bool
    requires { length scan.now ≤ length places.old }
    ensures value { result ≡ every (length scan.now) (λ i. ltb (meant reading.by_width reading.width (get_or scan.now i 0)) limit) }
    ensures places_after { places.new ≡ laid places.old 0 (length scan.now) (λ i. meant reading.by_width reading.width (get_or scan.now i 0)) }
{
    let mut ok = true;
    for i in 0..scan.len() {
        let place = reading.place(scan[i]);
        places[i] = place;
        ok = (u32::from(place) < limit) & ok;
    }
    ok
}

// The coefficient at each place.
fn gather(coefficients: &[i32], places: &[u16], named: &mut [i32])
    requires room { length places.now ≤ length named.old }
    requires by_index { (i : ℕ) → i < length places.now → get_or places.now i 0 < length coefficients.now }
    ensures { named.new ≡ laid named.old 0 (length places.now) (λ i. get_or coefficients.now (get_or places.now i 0) (pos 0)) }
{
    for i in 0..places.len() {
        named[i] = coefficients[usize::from(places[i])];
    }
}

// The coefficients that the scan names, unless one of its places isn't there: number 8's rule. Its places are put into places.
fn name_coefficients(
    width: usize,
    coefficients: &[i32],
    scan: &[u16],
    places: &mut [u16],
    named: &mut [i32],
) -> Result<(), Refusal>
    requires { (width ≤ 32) × (length scan.now ≤ 1024) × (length places.old ≡ length scan.now) × (length named.old ≡ length scan.now) }
    ensures { MatchResult result (λ _. (is_bad_scan width (length coefficients.now) scan.now ≡ false) × (named.new ≡ laid named.old 0 (length scan.now) (named_at width coefficients.now scan.now))) (λ why. (why ≡ ScanRange) × (is_bad_scan width (length coefficients.now) scan.now ≡ true)) }
{
    let reading = Reading::new(width, scan);
    let limit = reach(coefficients.len());
    if !find_places(reading, limit, scan, places) {
        return Err(Refusal::ScanRange);
    }
    gather(coefficients, places, named);
    Ok(())
}

// The levels and magnitudes of coefficients in range.
fn fill(scale: Scale, named: &[i32], levels: &mut [f32], magnitudes: &mut [f32])
    requires room { (length named.now ≤ length levels.old) × (length named.now ≤ length magnitudes.old) }
    requires in_range { every (length named.now) (λ i. coefficient_ok (get_or named.now i (pos 0))) ≡ true }
    ensures levels_after { levels.new ≡ laid levels.old 0 (length named.now) (λ i. level_by scale.inverse scale.threshold scale.bias (get_or named.now i (pos 0))) }
    ensures magnitudes_after { magnitudes.new ≡ laid magnitudes.old 0 (length named.now) (λ i. magnitude_by scale.inverse (get_or named.now i (pos 0))) }
{
    for i in 0..named.len() {
        let written = scale.quantize(named[i]);
        levels[i] = written.level;
        magnitudes[i] = written.magnitude;
    }
}

// A call that numbers 1, 3 and 7 don't refuse.
#[derive(Clone, Copy)]
struct Quantizer {
    width: usize,
    scale: Scale,
    ghost narrow: { width ≤ 32 },
}

impl Quantizer {
    // The tests of numbers 1, 3 and 7, for a scan of n entries and buffers of these lengths.
    #[tactic(auto, unfolding(answer::specs::Answer::lowest))]
    fn new(
        width: usize,
        step: u32,
        settings: Settings,
        n: usize,
        levels: usize,
        magnitudes: usize,
    ) -> Result<Quantizer, Refusal>
        ensures { MatchResult result (λ q. (q.width ≡ width) × IsScale settings step q.scale.inverse q.scale.threshold q.scale.bias × (answers n ≡ lowest (first_refusals width step settings n levels magnitudes) n)) (λ why. refuses (number_of why) ≡ lowest (first_refusals width step settings n levels magnitudes) n) }
    {
        if !sizes::is_side(width) {
            return Err(Refusal::BadSize);
        }
        if (levels < n) | (magnitudes < n) {
            return Err(Refusal::ShortBuffer);
        }
        let scale = Scale::new(settings, step)?;
        Ok(Quantizer { width, scale })
    }

    // The call past those tests, with room to work in for N entries.
    #[tactic(auto, unfolding(crate::specs::Scan::named_answer, answer::specs::Answer::lowest))]
    fn in_room<const N: usize>(
        self,
        coefficients: &[i32],
        scan: &[u16],
        levels: &mut [f32],
        magnitudes: &mut [f32],
    ) -> Outcome
        requires { (N ≤ 1024) × (length scan.now ≤ N) × (length scan.now ≤ length levels.old) × (length scan.now ≤ length magnitudes.old) }
        ensures value { told result ≡ named_answer self.width coefficients.now scan.now }
        ensures levels_after { levels.new ≡ after (named_answer self.width coefficients.now scan.now) (scanned (level_by self.scale.inverse self.scale.threshold self.scale.bias) self.width coefficients.now scan.now levels.old) levels.old }
        ensures magnitudes_after { magnitudes.new ≡ after (named_answer self.width coefficients.now scan.now) (scanned (magnitude_by self.scale.inverse) self.width coefficients.now scan.now magnitudes.old) magnitudes.old }
    {
        let n = scan.len();
        let mut places = [0u16; N];
        let mut room = [0i32; N];
        let named = &mut room[..n];
        name_coefficients(self.width, coefficients, scan, &mut places[..n], named)?;
        if !coefficients_ok(named) {
            return Err(Refusal::CoefficientRange);
        }
        fill(self.scale, named, levels, magnitudes);
        Ok(n)
    }
}

// One level and one magnitude for each entry of the scan. A short scan has a small room to work in, which is sooner made.
#[tactic(auto, using(crate::proofs::Scanned::first_refuses))]
pub fn quantize_to_levels(
    width: usize,
    step: u32,
    settings: Settings,
    coefficients: &[i32],
    scan: &[u16],
    levels: &mut [f32],
    magnitudes: &mut [f32],
) -> Outcome
    ensures result_value { told result ≡ scan_answer width step settings coefficients.now scan.now (length levels.old) (length magnitudes.old) }
    ensures levels_after { levels.new ≡ levels_after width step settings coefficients.now scan.now levels.old magnitudes.old }
    ensures magnitudes_after { magnitudes.new ≡ magnitudes_after width step settings coefficients.now scan.now levels.old magnitudes.old }
{
    let n = scan.len();
    let quantizer = Quantizer::new(width, step, settings, n, levels.len(), magnitudes.len())?;
    if n <= 64 {
        return quantizer.in_room::<64>(coefficients, scan, levels, magnitudes);
    }
    if n <= 1024 {
        return quantizer.in_room::<1024>(coefficients, scan, levels, magnitudes);
    }
    Err(Refusal::ScanRange)
}
