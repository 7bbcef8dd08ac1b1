// The marks of a ticket's lines, as bits.
ghost use Rattle.std.specs.Prelude.{◌≡◌, ◌+◌, ◌≤◌};
ghost use Rattle.tickets.specs.Mark.{any_from, all_marked, with_lines};

// Whether a line from n on is marked.
#[tactic(auto, using(crate::proofs::Mark::any_from_is))]
pub(crate) fn any_from(mask: u32, n: usize) -> bool
    requires { n ≤ 32 }
    ensures { result ≡ any_from n mask }
{
    u64::from(mask) >> n != 0
}

// The mask with count lines from start on marked.
#[tactic(auto, using(crate::proofs::Mark::with_fits, crate::proofs::Mark::with_is))]
pub(crate) fn with_lines(mask: u32, start: usize, count: usize) -> u32
    requires { start + count ≤ 32 }
    ensures { result ≡ with_lines mask start count }
{
    let run = ((1u64 << count) - 1) << start;
    (u64::from(mask) | run) as u32
}

// Whether each of the first n lines is marked.
#[tactic(auto, using(crate::proofs::Mark::all_marked_is))]
pub(crate) fn all_marked(mask: u32, n: usize) -> bool
    requires { n ≤ 32 }
    ensures { result ≡ all_marked n mask }
{
    with_lines(mask, 0, n) == mask
}
