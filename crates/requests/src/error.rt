// Why a request is no call, as text. There is room for it where 96 bytes are left, as for an answer.
ghost use Rattle.std.specs.Prelude.{◌≡◌, ◌+◌, ◌≤◌, ◌++◌, length};
ghost use Rattle.requests.specs.Errors.{error_text};

use crate::request::Reason;
use text::{NumberError, Text};

pub fn print_error<const N: usize>(reason: Reason, out: &mut Text<N>)
    requires { length out.old + 96 ≤ N }
    ensures { out.new ≡ out.old ++ error_text reason }
{
    match reason {
        Reason::UnknownCall => out.print(b"error unknown call\n"),
        Reason::Number(NumberError::NotANumber) => out.print(b"error not a number\n"),
        Reason::Number(NumberError::TooLarge) => out.print(b"error number too large\n"),
        Reason::MissingNumber => out.print(b"error missing number\n"),
        Reason::ExtraNumber => out.print(b"error extra number\n"),
        Reason::LineTooLong => out.print(b"error line too long\n"),
    }
}
