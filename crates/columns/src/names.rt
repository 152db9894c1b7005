// The latest open name.
ghost use Rattle.std.specs.Prelude.{◌≡◌, ◌*◌, ◌≤◌, length};
ghost use Rattle.state.specs.Limits.{slots};
ghost use Rattle.demands.specs.Open.{entries};
ghost use Rattle.columns.specs.Told.{within as within_of};

use ground::{part, same};
use state::limits::SLOTS;
use state::place::Depth;

// Whether it is `t`.
pub fn within(document: &[u8], stack: &[usize], depth: Depth) -> bool
    requires { depth.0 * slots ≤ length stack.now }
    ensures { result ≡ within_of document.now (entries stack.now depth.0) }
{
    if depth.0 == 0 {
        return false;
    }
    let i = (depth.0 - 1) * SLOTS;
    same(part(document, stack[i], stack[i + 1]), b"t")
}
