// Scans that are fed in pieces, for a host in Rust or C (include/sporebasket.h).
#![tactic(auto)]

mod slots;

ghost use Rattle.capi_pieces.specs.Scans.{Begun, Fed};

use crate::slots::{Held, SCAN_SLOTS, begun, load, store};
use pieces::feed::feed;

// The number of the refusal where the slots hold no scan.
const BAD_STATE: usize = 17;

// Begins a scan of what has the number `state`.
pub fn sporebasket_scan(state: usize, scan: &mut [usize]) -> usize
    ensures { Begun state scan.old result scan.new }
{
    if scan.len() < SCAN_SLOTS {
        return BAD_STATE;
    }
    let Held::Scan(fresh) = begun(state) else {
        return BAD_STATE;
    };
    store(scan, fresh);
    0
}

// Feeds the scan the next bytes.
pub fn sporebasket_feed(piece: &[u8], scan: &mut [usize]) -> usize
    ensures { Fed piece.now scan.old result scan.new }
{
    let Held::Scan(held) = load(scan) else {
        return BAD_STATE;
    };
    let fed = feed(held, piece);
    let next = fed.scan;
    let told = fed.told;
    store(scan, next);
    told.number()
}
