// The functions of `capi_pieces` that a host in Rust or C links (include/sporebasket.h), with the clauses that they have there.
#![tactic(auto)]

ghost use Rattle.capi_pieces.specs.Scans.{Begun, Fed};

// Begins a scan of what has the number `state`.
#[unsafe(no_mangle)]
pub extern "C" fn sporebasket_scan(state: usize, scan: &mut [usize]) -> usize
    ensures { Begun state scan.old result scan.new }
{
    capi_pieces::sporebasket_scan(state, scan)
}

// Feeds the scan the next bytes.
#[unsafe(no_mangle)]
pub extern "C" fn sporebasket_feed(piece: &[u8], scan: &mut [usize]) -> usize
    ensures { Fed piece.now scan.old result scan.new }
{
    capi_pieces::sporebasket_feed(piece, scan)
}
