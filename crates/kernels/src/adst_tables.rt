// The ADST kernels, sample by sample: a sample's numbers for all frequencies lie side by side, place k × n + f. The 64 of side 8 are reconstructed: the
// repository's file could not be had (docs/DIFFERENCES.md).
ghost use Rattle.std.specs.Prelude.{◌≡◌};
ghost use Rattle.kernels.specs.Kernel.{by_sample};

static ADST16: [i8; 256] = [
    8, 25, 41, 55, 67, 77, 84, 88, 89, 87, 81, 73, 62, 48, 33, 17, 17, 48, 73, 87, 88, 77, 55, 25,
    -8, -41, -67, -84, -89, -81, -62, -33, 25, 67, 88, 81, 48, 0, -48, -81, -88, -67, -25, 25, 67,
    88, 81, 48, 33, 81, 84, 41, -25, -77, -87, -48, 17, 73, 88, 55, -8, -67, -89, -62, 41, 88, 62,
    -17, -81, -77, -8, 67, 87, 33, -48, -89, -55, 25, 84, 73, 48, 88, 25, -67, -81, 0, 81, 67, -25,
    -88, -48, 48, 88, 25, -67, -81, 55, 81, -17, -89, -25, 77, 62, -48, -84, 8, 88, 33, -73, -67,
    41, 87, 62, 67, -55, -73, 48, 77, -41, -81, 33, 84, -25, -87, 17, 88, -8, -89, 67, 48, -81,
    -25, 88, 0, -88, 25, 81, -48, -67, 67, 48, -81, -25, 88, 73, 25, -89, 33, 67, -77, -17, 88,
    -41, -62, 81, 8, -87, 48, 55, -84, 77, 0, -77, 77, 0, -77, 77, 0, -77, 77, 0, -77, 77, 0, -77,
    77, 81, -25, -48, 88, -67, 0, 67, -88, 48, 25, -81, 81, -25, -48, 88, -67, 84, -48, -8, 62,
    -88, 77, -33, -25, 73, -89, 67, -17, -41, 81, -87, 55, 87, -67, 33, 8, -48, 77, -89, 81, -55,
    17, 25, -62, 84, -88, 73, -41, 88, -81, 67, -48, 25, 0, -25, 48, -67, 81, -88, 88, -81, 67,
    -48, 25, 89, -88, 87, -84, 81, -77, 73, -67, 62, -55, 48, -41, 33, -25, 17, -8,
];

// The ADST kernel of side 16.
#[tactic(auto, unfolding(crate::specs::Kernel::by_sample, crate::specs::Kernel::kernel, crate::specs::Adst::adst, crate::specs::Adst::adst16, laws::specs::Store::tab))]
#[inline(always)]
pub fn adst16() -> &'static [i8; 256]
    ensures { result.now ≡ by_sample 1 16 }
{
    &ADST16
}

static ADST8: [i8; 64] = [
    11, 34, 54, 71, 84, 88, 79, 50, 28, 74, 89, 68, 17, -44, -83, -69, 44, 89, 48, -41, -89, -44,
    50, 81, 58, 76, -34, -86, 10, 88, 6, -84, 70, 39, -87, 1, 86, -44, -59, 78, 79, -12, -66, 87,
    -35, -44, 86, -62, 86, -58, 12, 38, -75, 88, -74, 40, 89, -86, 79, -70, 58, -44, 29, -14,
];

// That of side 8.
#[tactic(auto, unfolding(crate::specs::Kernel::by_sample, crate::specs::Kernel::kernel, crate::specs::Adst::adst, crate::specs::Adst::adst8, laws::specs::Store::tab))]
#[inline(always)]
pub fn adst8() -> &'static [i8; 64]
    ensures { result.now ≡ by_sample 1 8 }
{
    &ADST8
}

static ADST4: [i8; 16] = [
    18, 50, 75, 89, 50, 89, 18, -75, 75, 18, -89, 50, 89, -75, 50, -18,
];

// That of side 4.
#[tactic(auto, unfolding(crate::specs::Kernel::by_sample, crate::specs::Kernel::kernel, crate::specs::Adst::adst, crate::specs::Adst::adst4, laws::specs::Store::tab))]
#[inline(always)]
pub fn adst4() -> &'static [i8; 16]
    ensures { result.now ≡ by_sample 1 4 }
{
    &ADST4
}
