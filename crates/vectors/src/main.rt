// Answers cases: each line of the file `cases` is a heading, or the name of a reader and bytes in hexadecimal. For each
// case a line is printed: the number that is answered, and after a 0 the bytes used and the shortest form; for an
// integer its number and the bytes used; for the name of a message's track the offsets of its bytes; for a trace its
// report, or what each field is answered, with ` /` for each newline. Equal bytes in a row may be written once, with
// how many they are: `61*64996`.
#![tactic(auto)]

mod hexadecimal;

use hexadecimal::{decode, say_bytes};
use std::fs::File;
use std::io;

// The room for a case's bytes: the longest message has 65,016, and a trace may have it behind its first field.
const ROOM: usize = 65536;

// ---- what is printed

fn say_integer(rt: &impl Print, s: &[u8]) -> io::Result<()> {
    match integer::read(s) {
        Ok((n, used)) => println!(rt; "0 {n} {used}"),
        Err(_) => println!(rt; "1"),
    }
}

// What is read and written again: the number, and with a 0 the bytes used and those written.
fn say_rewritten<R: FnOnce(&[u8], &mut [u8], &mut [u64]) -> u8>(
    rt: &impl Print,
    s: &[u8],
    rewrite: R,
) -> io::Result<()>
    requires { R.IsAlwaysCallable rewrite }
{
    let mut out = [0u8; ROOM];
    let mut info = [0u64; 3];
    let number = rewrite(s, &mut out, &mut info);
    print!(rt; "{number}")?;
    if number == 0 {
        let [used, written, _] = info;
        print!(rt; " {used} ")?;
        if let Some(bytes) = out.get(..written as usize) {
            say_bytes(rt, bytes)?;
        }
    }
    println!(rt)
}

// What text was put at the front of out, on one line.
fn say_put(rt: &impl Print, out: &[u8], put: Option<usize>) -> io::Result<()> {
    let Some(n) = put else {
        return Ok(());
    };
    let Some(text) = out.get(..n) else {
        return Ok(());
    };
    for (i, line) in text.split_inclusive(|c| *c == b'\n').enumerate() {
        if 0 < i {
            print!(rt; " ")?;
        }
        match line.strip_suffix(b"\n") {
            Some(line) => {
                rt.write_all(line)?;
                print!(rt; " /")?;
            }
            None => rt.write_all(line)?,
        }
    }
    println!(rt)
}

fn say_report(rt: &impl Print, s: &[u8]) -> io::Result<()> {
    let mut out = [0u8; report::LONGEST_REPORT];
    let put = report::of_trace(s, &mut out);
    say_put(rt, &out, put)
}

fn say_answers(rt: &impl Print, s: &[u8]) -> io::Result<()> {
    let mut out = [0u8; 65536];
    let put = answers::of_trace(s, &mut out);
    say_put(rt, &out, put)
}

// ---- cases

// Where the name of a message lies: a 0, and the offset of each of its bytes. It is asked for among as many bytes as
// the message was read from, each of them its own offset, modulo 256; so what is handed back tells its place, also
// where the message holds the same bytes twice.
fn say_name(rt: &impl Print, s: &[u8]) -> io::Result<()> {
    let Ok((m, _)) = message::read(s) else {
        return println!(rt; "-");
    };
    let mut places = [0u8; ROOM];
    for (i, place) in places.iter_mut().enumerate() {
        *place = (i % 256) as u8;
    }
    print!(rt; "0")?;
    if let Some(places) = places.get(..s.len()) {
        for offset in message::track_name(places, m) {
            print!(rt; " {offset}")?;
        }
    }
    println!(rt)
}

// Has bytes answered by the reader of this name.
fn answer(rt: &impl Print, word: &[u8], s: &[u8]) -> io::Result<()> {
    match word {
        b"integer" => say_integer(rt, s),
        b"control" => say_rewritten(rt, s, |s, out, info| rewrite::control(s, out, info)),
        b"name" => say_name(rt, s),
        b"stream" => say_rewritten(rt, s, |s, out, info| rewrite::stream(s, out, info)),
        b"datagram" => say_rewritten(rt, s, |s, out, info| rewrite::datagram(s, out, info)),
        b"subobj" => say_rewritten(rt, s, |s, out, info| rewrite::subgroup_object(s, out, info)),
        b"fetchobj" => say_rewritten(rt, s, |s, out, info| rewrite::fetch_object(s, out, info)),
        b"trace" => say_report(rt, s),
        b"answers" => say_answers(rt, s),
        _ => println!(rt; "no reader has this name"),
    }
}

// A case of more bytes than there is room for is not answered.
fn answer_case(rt: &impl Print, line: &[u8]) -> io::Result<()> {
    let end = line.iter().position(|c| *c == b' ').unwrap_or(line.len());
    let (word, digits) = line.split_at(end);
    let mut bytes = [0u8; ROOM];
    match decode(digits, &mut bytes) {
        Some(bytes) => answer(rt, word, bytes),
        None => println!(rt; "too long"),
    }
}

// A heading is printed as it is, so that cases and answers can be read side by side.
fn answer_line(rt: &impl Print, line: &[u8]) -> io::Result<()> {
    match line {
        [b'#', ..] => {
            rt.write_all(line)?;
            println!(rt)
        }
        _ => answer_case(rt, line),
    }
}

// Takes the text apart, line by line. What stands after its last line's end is not answered.
fn answer_lines(rt: &impl Print, text: &[u8]) -> io::Result<()> {
    for line in text.split_inclusive(|c| *c == b'\n') {
        if let Some(line) = line.strip_suffix(b"\n") {
            answer_line(rt, line)?;
        }
    }
    Ok(())
}

// Reads 262,144 bytes of the file at most.
fn main(rt: HostRuntime) -> io::Result<()> {
    let mut text = [0u8; 262144];
    let mut cases = match File::open(&rt, "cases") {
        Ok(cases) => cases,
        Err(e) => {
            let _ = eprintln!(rt; "vectors: cases: {e}");
            return Ok(());
        }
    };
    let n = console::read_full(&mut cases, &mut text)?;
    answer_lines(&rt, &text[..n])
}
