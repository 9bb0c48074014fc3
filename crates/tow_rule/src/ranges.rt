//! The ranges of the numbers of links.
ghost use Rattle.std.specs.Prelude.{◌≡◌};
ghost use Rattle.std.specs.List.{list_any};
ghost use Rattle.tow_rule.specs.Refusals.{outside};

use tow_sheets::Link;

/// Whether some link has a number out of its range.
pub(crate) fn some_outside(links: &[Link]) -> bool
    ensures { result ≡ list_any outside links.now }
{
    links.iter().any(|link| !link.is_in_range())
}
