// The shortest form of a field is put at the front of what is lent. Each writer lends on what is left after what it
// put: so out is another slice at each call, and no struct keeps it beside bytes.
ghost use Rattle.std.specs.Prelude.{◌≡◌, true, ◌++◌, ◌-◌, ◌≤◌, length};
ghost use Rattle.common.specs.Answer.{Leaves};
ghost use Rattle.common.specs.Buffer.{Put};
ghost use Rattle.integer.specs.Integer.{enc_of, greatest};
ghost use Rattle.field.specs.Value.{part, contents, mean, enc_text, enc_items, enc_list, enc_field};
ghost use Rattle.measure.specs.Judging.{right_span, right_list, right};
ghost use Rattle.measure.specs.Measuring.{told_measured};
ghost use Rattle.encode.specs.Entries.{enc_head};
ghost use Rattle.encode.specs.Writing.{put_field};

use field::{Entries, Kind, Piece, Span};
use measure::{Judge, Unfit};

// An integer.
pub fn put_number(out: &mut [u8], n: u64) -> usize
    requires { (n ≤ greatest) × (length (enc_of n) ≤ length out.old) }
    ensures { Put (enc_of n) out.old result out.new }
{
    // The number is small enough, and there is room: nothing is refused.
    let _ = integer::write(out, n);
    integer::size(n)
}

// A number, and after it another: Type and Length of a message or of a parameter.
pub fn put_two(out: &mut [u8], first: u64, second: u64) -> usize
    requires first_le_greatest { (first ≤ greatest) × (second ≤ greatest) }
    requires second_in_bounds { length (enc_of first ++ enc_of second) ≤ length out.old }
    ensures { Put (enc_of first ++ enc_of second) out.old result out.new }
{
    let a = put_number(out, first);
    let b = put_number(&mut out[a..], second);
    a + b
}

// A part of the bytes, as it is.
fn put_bytes(out: &mut [u8], bytes: &[u8], p: Span) -> usize
    requires lies { (p.start ≤ p.end) × (p.end ≤ length bytes.now) }
    requires in_bounds { p.end - p.start ≤ length out.old }
    ensures { Put (part bytes.now p) out.old result out.new }
{
    common::put_bytes(out, &bytes[p.start..p.end])
}

// A length and the bytes of a part.
pub fn put_text(out: &mut [u8], bytes: &[u8], p: Span) -> usize
    requires p_value { right_span bytes.now p ≡ true }
    requires p_in_bounds { length (enc_text (part bytes.now p)) ≤ length out.old }
    ensures { Put (enc_text (part bytes.now p)) out.old result out.new }
{
    let head = put_number(out, (p.end - p.start) as u64);
    let n = put_bytes(&mut out[head..], bytes, p);
    head + n
}

// The numbers in front of the n bytes of an entry.
fn put_head(out: &mut [u8], kind: Kind, number: u64, n: u64) -> usize
    requires number_le_greatest { (number ≤ greatest) × (n ≤ greatest) }
    requires n_in_bounds { length (enc_head kind number n) ≤ length out.old }
    ensures { Put (enc_head kind number n) out.old result out.new }
{
    match kind {
        Kind::Namespace => put_number(out, n),
        Kind::Parameters => put_two(out, number, n),
        Kind::Versions => put_number(out, number),
    }
}

// The entries of a part, each in its shortest form.
fn put_entries(out: &mut [u8], bytes: &[u8], kind: Kind, l: Entries) -> usize
    requires l_value { right_list bytes.now kind l ≡ true }
    requires l_in_bounds { length (enc_items kind (contents bytes.now kind l)) ≤ length out.old }
    ensures { Put (enc_items kind (contents bytes.now kind l)) out.old result
        out.new }
{
    let mut at: usize = 0;
    let mut here = l.start;
    for _ in 0..l.count {
        let Ok(e) = field::entry_at(bytes, kind, integer::GREATEST, here) else {
            return at;
        };
        let n = e.bytes.end - e.bytes.start;
        at += put_head(&mut out[at..], kind, e.number, n as u64);
        at += put_bytes(&mut out[at..], bytes, e.bytes);
        here = e.bytes.end;
    }
    at
}

// A count and the entries of a part.
fn put_list(out: &mut [u8], bytes: &[u8], kind: Kind, l: Entries) -> usize
    requires l_value { right_list bytes.now kind l ≡ true }
    requires l_in_bounds { length (enc_list kind (contents bytes.now kind l)) ≤ length out.old }
    ensures { Put (enc_list kind (contents bytes.now kind l)) out.old result
        out.new }
{
    let head = put_number(out, l.count);
    let n = put_entries(&mut out[head..], bytes, kind, l);
    head + n
}

// A field that was judged to be right, and to fit.
pub fn put_piece(out: &mut [u8], bytes: &[u8], p: Piece) -> usize
    requires p_value { right bytes.now p ≡ true }
    requires p_in_bounds { length (enc_field (mean bytes.now p)) ≤ length out.old }
    ensures { Put (enc_field (mean bytes.now p)) out.old result out.new }
{
    match p {
        Piece::Number(n) => put_number(out, n),
        Piece::Byte(b) => {
            out[0] = b;
            1
        }
        Piece::Bytes(b) => put_text(out, bytes, b),
        Piece::List(kind, l) => put_list(out, bytes, kind, l),
        Piece::Track(t) => {
            let head = put_list(out, bytes, Kind::Namespace, t.namespace);
            let n = put_text(&mut out[head..], bytes, t.name);
            head + n
        }
    }
}

// The shortest form of a field, at the front of out; every byte after it stays, and a refusal changes none.
pub fn put(out: &mut [u8], bytes: &[u8], p: Piece) -> Result<usize, Unfit>
    ensures { Leaves (put_field bytes.now p out.old) (told_measured result) out.new }
{
    let room = out.len();
    let judge = Judge { bytes, room };
    let n = judge.measure(p)?;
    put_piece(out, bytes, p);
    Ok(n)
}
