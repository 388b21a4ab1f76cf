ghost use Rattle.std.specs.Prelude.{◌≡◌};
ghost use Rattle.text.specs.Order.{order, Lawful};

use std::cmp::Ordering;

/// Compares two strings as unsigned bytes from the left; a prefix is lower.
#[tactic(auto, using(crate::proofs::Orders::slices_order))]
pub fn compare(left: &[u8], right: &[u8]) -> Ordering
    ensures result { result ≡ order left.now right.now }
    ensures lawful { Lawful order }
{
    left.cmp(right)
}
