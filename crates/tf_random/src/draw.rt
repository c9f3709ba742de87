//! Random numbers: the generator SplitMix64.
ghost use Rattle.std.specs.Prelude.{◌≡◌, ◌<◌};
ghost use Rattle.tf_random.specs.Draw.{below, draw, mixed, mixed_once, mixed_thrice, mixed_twice};
ghost use Rattle.tf_random.specs.Draw.{product};

const GOLDEN: u64 = 11_400_714_819_323_198_485;

const FIRST: u64 = 13_787_848_793_156_543_929;

const SECOND: u64 = 10_723_151_780_598_845_931;

/// Number n of a seed, n from 1: 0 to 2^64 - 1.
#[tactic(auto, unfolding(crate::specs::Draw::draw))]
pub fn draw(seed: u32, n: u64) -> u64
    ensures { result ≡ draw seed n }
{
    let multiple = u128::from(n) * u128::from(GOLDEN);
    let state = (u128::from(seed) + multiple % 18_446_744_073_709_551_616)
        % 18_446_744_073_709_551_616;
    mixed(state as u64)
}

/// Number n of a seed, below `most`.
pub fn below(seed: u32, n: u64, most: u64) -> u64
    requires { 0 < most }
    ensures value { result ≡ below seed n most }
    ensures small { result < most }
{
    draw(seed, n) % most
}

fn mixed(state: u64) -> u64
    ensures { result ≡ mixed state }
{
    last(second(first(state)))
}

fn first(state: u64) -> u64
    ensures { result ≡ mixed_once state }
{
    product(state ^ (state / 1_073_741_824), FIRST)
}

fn second(state: u64) -> u64
    ensures { result ≡ mixed_twice state }
{
    product(state ^ (state / 134_217_728), SECOND)
}

fn last(state: u64) -> u64
    ensures { result ≡ mixed_thrice state }
{
    state ^ (state / 2_147_483_648)
}

// The product without what goes beyond 64 bits.
fn product(a: u64, b: u64) -> u64
    ensures { result ≡ product a b }
{
    (u128::from(a) * u128::from(b) % 18_446_744_073_709_551_616) as u64
}
