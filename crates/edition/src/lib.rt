// Editions of the standard, by the number of their RFC.
// Not an enum: it would need an Other, as Signal has, and beside is_edition one `==` alone reads it.
// Inner: every function.
#![tactic(auto)]

ghost use Rattle.std.specs.Prelude.{◌≡◌};
ghost use Rattle.edition.specs.Edition.{is_edition};

// RFC 6716 as first published.
pub const OLDER: i32 = 6716;

// RFC 6716 as RFC 8251 amends it.
pub const NEWER: i32 = 8251;

pub fn is_edition(edition: i32) -> bool
    ensures { result ≡ is_edition edition }
{
    matches!(edition, OLDER | NEWER)
}
