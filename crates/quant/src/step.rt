// The step of an index.
ghost use Rattle.std.specs.Prelude.{◌≡◌, ◌≤◌};
ghost use Rattle.quant.specs.Step.{step_at, step_of};

const STEPS: [u32; 25] = [
    64, 40, 41, 43, 44, 45, 47, 48, 49, 51, 52, 54, 55, 57, 59, 60, 62, 64, 66, 68, 70, 72, 74, 76,
    78,
];

// The step of an index from 1 to 255: the table holds one octave.
fn step_at(q: u32) -> u32
    requires { (1 ≤ q) × (q ≤ 255) }
    ensures { result ≡ step_at q }
{
    let place = ((q - 1) % 24 + 1) as usize;
    STEPS[place] << ((q - 1) / 24)
}

// The step of any index.
pub fn qstep(index: u32) -> u32
    ensures { result ≡ step_of index }
{
    if index == 0 {
        return 64;
    }
    if index <= 255 {
        return step_at(index);
    }
    step_at(255)
}
