// The call that feeds a scan the next bytes.
ghost use Rattle.std.specs.Prelude.{◌≡◌, ◌+◌, ◌≤◌, length};
ghost use Rattle.state.specs.Limits.{longest};
ghost use Rattle.pieces.specs.Fed.{fed, fed_on, refused as refused_of};

use crate::ahead::{Ahead, onward};
use crate::reached::reached;
use crate::scan::{Fed, Scan, State, Told};
use state::answer::Error;
use state::limits::LONGEST;

// 17 where no feeding leads to such a scan; then the place that was found, whatever is fed; then 16 where the bytes would pass the longest document. A refusal
// leaves the scan as it is.
pub fn feed(scan: Scan, piece: &[u8]) -> Fed
    ensures { result ≡ fed scan piece.now }
{
    match scan {
        Scan::Closed(place) => {
            if place < LONGEST {
                Fed {
                    scan,
                    told: Told::At(place),
                }
            } else {
                refused(scan, Error::BadState)
            }
        }
        Scan::Open { taken, state } => {
            if reached(taken, state) {
                if LONGEST - taken < piece.len() {
                    refused(scan, Error::SliceTooLong)
                } else {
                    go_on(taken, state, piece)
                }
            } else {
                refused(scan, Error::BadState)
            }
        }
    }
}

// Goes on over the bytes, of which the first stands at the place `taken`.
fn go_on(taken: usize, state: State, piece: &[u8]) -> Fed
    requires { taken + length piece.now ≤ longest }
    ensures { result ≡ fed_on taken state piece.now }
{
    match onward(piece, state) {
        Ahead::At(place) => Fed {
            scan: Scan::Closed(taken + place),
            told: Told::At(taken + place),
        },
        Ahead::Open(state) => Fed {
            scan: Scan::Open {
                taken: taken + piece.len(),
                state,
            },
            told: Told::Open,
        },
    }
}

// A refusal, which leaves the scan as it is.
fn refused(scan: Scan, error: Error) -> Fed
    ensures { result ≡ refused_of scan error }
{
    Fed {
        scan,
        told: Told::Refused(error),
    }
}
