//! Flags by number.

ghost use Rattle.cert_checker.specs.TreeJudge.Marks.{Marks};

/// Sets the flag with this number, if there is one.
pub fn mark(flags: &mut [bool], number: Option<u16>)
    ensures { Marks number flags.old flags.new }
{
    if let Some(number) = number {
        if (number as usize) < flags.len() {
            flags[number as usize] = true;
        }
    }
}
