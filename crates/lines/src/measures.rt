// The measures of a line: K, D and room for K entries a way.
ghost use Rattle.std.specs.Prelude.{◌≡◌};
ghost use Rattle.lines.specs.Line.{check_answer, made};
ghost use Rattle.lines.specs.Stored.{fit};

use crate::LineRefusal;

// K, D and the two lengths stay parameters and make no struct, since checking and making are called with them.

// Whether a line can be made with these measures, where its memory has room for so many entries a way.
pub(crate) fn check(k: usize, d: usize, one: usize, two: usize) -> Result<(), LineRefusal>
    ensures { result ≡ check_answer k d one two }
{
    if (8..=64).contains(&k) && (1..=1000).contains(&d) && k <= one && k <= two {
        Ok(())
    } else {
        Err(LineRefusal::Measure)
    }
}

// K and D of the line that is made with these measures: the dead line's where the check refuses them.
pub(crate) fn granted(k: usize, d: usize, one: usize, two: usize) -> (usize, u16)
    ensures { result ≡ ((made k d one two).capacity, (made k d one two).lifetime) }
{
    match check(k, d, one, two) {
        Ok(_) => (k, d as u16),
        Err(_) => (0, 1),
    }
}

// Whether two stores with this lifetime make a line.
pub(crate) fn fits(one: usize, two: usize, lifetime: u16) -> bool
    ensures { result ≡ fit one two lifetime }
{
    one == two && one <= 64 && (1..=1000).contains(&lifetime)
}
