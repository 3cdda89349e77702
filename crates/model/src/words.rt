// Words that mean something, and marks.
ghost use Rattle.std.specs.Prelude.{◌≡◌};
ghost use Rattle.model.specs.Marks.{mark_of};

// An end not yet known; no second.
pub const OPEN: u32 = 4294967295;

// A word that tells its place: what a call must leave is filled with such.
pub(crate) fn mark(place: usize) -> u32
    ensures { result ≡ mark_of place }
{
    3000000000u32.saturating_add(u32::try_from(place).unwrap_or(OPEN))
}
