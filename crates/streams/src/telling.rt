// What failed, and why, on standard error.
use arrayvec::ArrayString;
use std::fmt::Write;
use std::io::Error;

// Room for the system's words.
const ROOM: usize = 256;

// The text without the number that std puts behind the system's words.
fn without_number(text: &str) -> &str {
    match text.split_once(" (os error ") {
        Some((words, _)) => words,
        None => text,
    }
}

// Tells what failed, a colon and the error's text; where standard error takes nothing, nobody is told.
pub fn tell(rt: &impl Eprint, what: &str, e: &Error) {
    let mut words = ArrayString::<ROOM>::new();
    let _ = write!(words, "{e}");
    let text = without_number(words.as_str());
    let _ = eprintln!(rt; "{what}: {text}");
}
