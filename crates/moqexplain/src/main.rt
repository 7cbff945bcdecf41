// moqexplain: reads a trace from standard input to its end, and prints its bytes, part by part, with what each part is.
// With the word -c it reads a control stream instead. It holds a piece of the input and a page of the text at a time,
// whatever the input's length.
#![tactic(auto)]

mod streams;
mod traces;
mod writing;

use std::env::Env;

// Whether a control stream is asked for.
fn is_stream(rt: &impl Env) -> bool {
    let mut word = [0u8; 3];
    matches!(rt.arg(1, &mut word), Ok(2)) && word.starts_with(b"-c")
}

fn main(rt: HostRuntime) {
    let done = if is_stream(&rt) {
        streams::explain(&rt)
    } else {
        traces::explain(&rt)
    };
    console::say_failed(&rt, "moqexplain", done);
}
