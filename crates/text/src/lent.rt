// The very part of lent bytes, for whoever answers with a part of what he was lent.
ghost use Rattle.std.specs.Prelude.{◌≤◌, length};
ghost use Rattle.text.specs.Part.{VeryPart};

// The part from start up to end: not equal bytes elsewhere, but those that lie there.
pub fn part<'a>(whole: &'a [u8], start: usize, end: usize) -> &'a [u8]
    requires { (start ≤ end) × (end ≤ length whole.now) }
    ensures { VeryPart result whole.entry start end }
{
    &whole[start..end]
}
