ghost use Rattle.std.specs.Prelude.{◌≡◌, ◌+◌, ◌%◌, ◌<◌};
ghost use Rattle.ppp_mp.specs.Header.{long_space};

// How many numbers there are before they begin anew.
const SPACE: u32 = 16_777_216;

// A number so far ahead, or farther, stands for one that is behind.
pub(crate) const HALF: u32 = 8_388_608;

// The number that comes so many behind this one.
pub(crate) fn number_after(number: u32, count: u32) -> u32
    ensures is { result ≡ (number + count) % long_space }
    ensures within { result < long_space }
{
    (number % SPACE + count % SPACE) % SPACE
}

// How far ahead of the base a number is.
pub(crate) fn ahead_of(base: u32, number: u32) -> u32
    requires base { base < long_space }
    requires number { number < long_space }
    ensures is { (base + result) % long_space ≡ number }
    ensures within { result < long_space }
{
    (number + SPACE - base) % SPACE
}
