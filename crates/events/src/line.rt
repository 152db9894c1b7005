// The line of an answer.
use lines::line::say_numbers;
use lines::whole::say_refused;
use lines::words::say_word;
use state::answer::Values;
use std::io;
use std::io::Write;

pub fn say_values<W: Write>(out: &mut W, values: Values) -> io::Result<()> {
    if values.kind == 0 {
        return say_refused(out, values.number, values.place);
    }
    let piece = values.piece;
    let content = values.content;
    let numbers = [piece.from, piece.to, content.from, content.to, values.name];
    say_word(out, values.kind)?;
    say_numbers(out, b" # # # # #\n", &numbers)
}
