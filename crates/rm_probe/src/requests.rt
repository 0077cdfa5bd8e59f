// The request file, which is judged whole before anything is written.
ghost use Rattle.std.specs.Prelude.{◌≡◌, Err};
ghost use Rattle.rm_edge.specs.Outside.{Rose};
ghost use Rattle.rm_edge.specs.Shelves.{KeepsShelf};
ghost use Rattle.rm_requests.specs.Reading.{beginning, reached_of};
ghost use Rattle.rm_requests.specs.declared.fault.RequestsFault.TheVariants.{Read};
ghost use Rattle.rm_probe.specs.Requests.{JudgesRequests};

use rm_edge::Shelf;
use rm_requests::{Requests, RequestsFault};

/// Reads a request file from its first line to its end, and tells its first fault, if it has one.
pub fn judge<F: Shelf>(
    requests: &mut Requests,
    shelf: &mut F,
    name: &str,
) -> Result<(), RequestsFault>
    requires { reached_of requests.old ≡ beginning }
    ensures shelf { KeepsShelf F.held F.faults shelf.old shelf.new (λ each. each ≡ name.now) (result ≡ Err Read) }
    ensures cause { result ≡ Err Read → Rose (F.faults shelf.old name.now) (F.faults shelf.new name.now) }
    ensures judged { JudgesRequests (F.held shelf.old name.now) result }
{
    loop {
        match requests.next(shelf, name) {
            Ok(Some(_)) => (),
            Ok(None) => return Ok(()),
            Err(fault) => return Err(fault),
        }
    }
}
