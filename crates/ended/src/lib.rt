// How a program ends. Whoever asked for its first lines alone closes the pipe when he has them, and that is no failure.
#![tactic(auto)]

ghost use Rattle.std.specs.Prelude.{◌≡◌, ◌≢◌, IfErr, Err};
ghost use Rattle.std.specs.IoError.{error_kind};
ghost use Rattle.std.specs.declared.io.ErrorKind.TheVariants.{BrokenPipe};

use std::io;
use std::io::ErrorKind;

// An error stays what it was, unless it says that nobody reads any more.
pub fn ended(r: io::Result<()>) -> io::Result<()>
    ensures kept { IfErr r (λ e. error_kind e ≢ BrokenPipe → result ≡ r) }
    ensures made { IfErr result (λ e. r ≡ Err e) }
    ensures passed_by { IfErr result (λ e. error_kind e ≢ BrokenPipe) }
{
    match r {
        Err(e) if e.kind() == ErrorKind::BrokenPipe => Ok(()),
        r => r,
    }
}
