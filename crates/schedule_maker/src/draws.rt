ghost use Rattle.std.specs.Prelude.{◌≡◌, ◌<◌, ◌≤◌, ◌^◌};
ghost use Rattle.schedule_maker.specs.Draws.{next_number, drawn};

/// What the number is multiplied with, and what is added, at each draw.
const FACTOR: u64 = 6_364_136_223_846_793_005;

const SUMMAND: u64 = 1_442_695_040_888_963_407;

/// The number after this one.
#[tactic(auto, unfolding(crate::specs::Draws::next_number))]
pub fn next_number(x: u64) -> u64
    ensures { result ≡ next_number x }
{
    x.wrapping_mul(FACTOR).wrapping_add(SUMMAND)
}

/// What a draw below `k` gives with this number.
#[tactic(auto, unfolding(crate::specs::Draws::drawn))]
pub fn drawn(x: u64, k: u32) -> u32
    requires { 0 < k }
    ensures exact { result ≡ drawn x k }
    ensures below { result < k }
{
    ((x >> 33) % u64::from(k)) as u32
}
