//! A refusal leaves everything.
ghost use Rattle.std.specs.Prelude.{◌≡◌, true};
ghost use Rattle.cardmodel.specs.Refusals.{RefusalsLeave};

/// A command that gets a cause leaves the whole card as it was.
pub fn refusals_leave_everything() -> bool
    ensures law { RefusalsLeave }
    ensures stands { result ≡ true }
{
    true
}
