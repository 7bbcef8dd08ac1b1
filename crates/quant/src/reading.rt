// How the entries of a scan are read.
ghost use Rattle.std.specs.Prelude.{◌≡◌, ◌≤◌};
ghost use Rattle.quant.specs.Scan.{is_by_width, meant};

// Whether places are row-major, and the width, which stands in either case.
#[derive(Clone, Copy)]
pub(crate) struct Reading {
    pub(crate) by_width: bool,
    pub(crate) width: u16,
    ghost narrow: { width ≤ 32 },
}

// Whether places are row-major: the second entry exists and equals the width.
#[tactic(auto, unfolding(crate::specs::Scan::is_by_width))]
fn is_by_width(width: usize, scan: &[u16]) -> bool
    ensures { result ≡ is_by_width width scan.now }
{
    if scan.len() < 2 {
        return false;
    }
    usize::from(scan[1]) == width
}

impl Reading {
    pub(crate) fn new(width: usize, scan: &[u16]) -> Reading
        requires { width ≤ 32 }
        ensures { (result.by_width ≡ is_by_width width scan.now) × (result.width ≡ width) }
    {
        Reading {
            by_width: is_by_width(width, scan),
            width: width as u16,
        }
    }

    // The place that the entry rc means.
    #[inline(always)]
    #[tactic(auto, unfolding(crate::specs::Scan::meant))]
    pub(crate) fn place(self, rc: u16) -> u16
        ensures { result ≡ meant self.by_width self.width rc }
    {
        if self.by_width {
            rc
        } else {
            rc % 32 * self.width + rc / 32
        }
    }
}
