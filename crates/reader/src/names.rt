// The lent stack of open names: two slots to a name, its start and its end.
ghost use Rattle.std.specs.Prelude.{◌≡◌, ◌+◌, ◌*◌, ◌≤◌, ◌<◌, length};
ghost use Rattle.state.specs.Limits.{slots};
ghost use Rattle.reader.specs.Names.{latest as latest_of, pushed, written};
ghost use Rattle.reader.specs.Asked.{Room};

use state::answer::{Answer, Kind};
use state::limits::SLOTS;
use state::place::{Depth, Span};

// The latest open name; 0..0 where none is open.
pub fn latest(stack: &[usize], depth: Depth) -> Span
    requires { depth.0 * slots ≤ length stack.now }
    ensures { result ≡ latest_of stack.now depth.0 }
{
    if depth.0 == 0 {
        return Span { from: 0, to: 0 };
    }
    let i = (depth.0 - 1) * SLOTS;
    Span {
        from: stack[i],
        to: stack[i + 1],
    }
}

// Writes a name's two numbers, with `depth` names below it.
fn push(stack: &mut [usize], depth: Depth, name: Span)
    requires { depth.0 * slots + 1 < length stack.old }
    ensures { stack.new ≡ pushed stack.old depth.0 name }
{
    let i = depth.0 * SLOTS;
    stack[i] = name.from;
    stack[i + 1] = name.to;
}

// Writes the name that an answer opens, with `depth` names below it. Any other answer writes nothing.
pub fn note(stack: &mut [usize], depth: Depth, answer: Answer)
    requires { Room (length stack.old) depth.0 answer }
    ensures { stack.new ≡ written stack.old depth.0 answer }
{
    let values = answer.values();
    let start = Kind::Start;
    if values.kind == start.number() {
        let from = values.content.from;
        let to = from + values.name;
        push(stack, depth, Span { from, to });
    }
}
