//! What follows from the contracts, for a reader.

ghost use Rattle.std.specs.Prelude.{◌≡◌, ℕ, ◌≤◌, ◌<◌, ◌^◌, List, Some, decimal};
ghost use Rattle.ppp_base.specs.Numbers.{number_of};

use crate::numbers::LeadingZeros;

/// Where no zero may lead, what a number is written as is read as it, and nothing else is.
pub fn numbers_back()
    ensures back { (least most number : ℕ) → least ≤ number → number ≤ most → most < 2 ^ 64
        → number_of LeadingZeros.Refused least most (decimal number) ≡ Some number }
    ensures alone { (least most number : ℕ) (word : List ℕ) → most < 2 ^ 64
        → number_of LeadingZeros.Refused least most word ≡ Some number → word ≡ decimal number }
{}
