// Answers as text.
ghost use Rattle.std.specs.Prelude.{IfOk, Some};
ghost use Rattle.cases.specs.Digits.{digits_of};

use std::{fmt, io};

// Bytes that are printed as digits.
#[derive(Clone, Copy)]
pub(crate) struct Digits<'a>(pub &'a [u8]);

impl fmt::Display for Digits<'_> {
    ghost output = { λ digits. Some (digits_of digits.0.now) };

    fn fmt<W: fmt::Write>(&self, f: &mut fmt::Formatter<W>) -> fmt::Result {
        for byte in self.0 {
            write!(f, "{byte}")?;
        }
        Ok(())
    }
}

// Prints what a call answered, as its caller does, or what refused the call. `tour` has the same: a crate for it alone would be no plainer.
pub(crate) fn print_answer<T: Drop, E: fmt::Display + Drop, F: FnOnce(T) -> io::Result<()>>(
    rt: &HostRuntime,
    answer: Result<T, E>,
    print: F,
) -> io::Result<()>
    requires { IfOk answer (λ value. F.pre print value) }
{
    match answer {
        Ok(value) => print(value),
        Err(refusal) => println!(rt; "refused {refusal}"),
    }
}
