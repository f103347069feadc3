#![tactic(auto)]

ghost use Rattle.std.specs.Prelude.{◌≡◌, ◌≤◌, ◌<◌, length};
// Answers the lines of standard input, each on a line of standard output.
//
// A line that starts with a letter is for a reader of bytes (readers.rt). Any other line is a case:
// the call's number (0 demangle, 1 demangle_type, 2 shape, 3 shape_type, 4 to 7 the same stopped),
// the ceiling, k or `-`, how many numbers of workspace and how much room to lend, and the text in
// hexadecimal digits, with tabs between them. The answer is number, place, steps, total, wraps and
// length with spaces between them, a tab, and what was written: bytes in hexadecimal digits, or
// numbers with spaces between them. Workspace and output slices hold whatever the cases before left
// in them. compare/vectors says how lines and answers were made.
mod readers;

use definition::Answer;
use std::io::{Read, Stdin, Stdout};
use text_cursor::Reader;

// Writes the bytes. A write that fails is passed over, here and below.
fn write(to: Stdout, bytes: &[u8]) {
    let _ = to.write_all(bytes);
}

fn put(to: Stdout, n: usize) {
    let _ = to.print(n);
}

fn space(to: Stdout) {
    write(to, b" ");
}

// A digit's character, for a digit below 16.
fn hex_digit(d: u8) -> u8 {
    match d {
        0..=9 => b'0' + d,
        10..=15 => b'a' + (d - 10),
        _ => b'?',
    }
}

fn put_hex(to: Stdout, b: u8) {
    let digits = [hex_digit(b / 16), hex_digit(b % 16)];
    write(to, &digits);
}

fn put_number(to: Stdout, x: u32) {
    let _ = to.print(x);
}

// The numbers with spaces between them.
fn put_values(to: Stdout, values: &[u64]) {
    for (i, value) in values.iter().enumerate() {
        if 0 < i {
            space(to);
        }
        let _ = to.print(*value);
    }
}

// How much an answer says was written.
fn written(a: Answer) -> usize {
    match a {
        Ok(accepted) => accepted.length,
        Err(_) => 0,
    }
}

// The six values of an answer and a tab; returns how much was written.
fn put_answer(to: Stdout, a: Answer) -> usize {
    let six = call_values::numbers(a);
    put_values(to, &six);
    write(to, b"\t");
    written(a)
}

fn put_bytes(to: Stdout, out: &[u8], n: usize) {
    for b in out.iter().take(n) {
        put_hex(to, *b);
    }
}

fn put_numbers(to: Stdout, out: &[u32], n: usize) {
    for (i, x) in out.iter().take(n).enumerate() {
        if 0 < i {
            space(to);
        }
        put_number(to, *x);
    }
}

// The calls 0 and 1.
fn read(to: Stdout, call: usize, text: &[u8], ceiling: usize, ws: &mut [u32], out: &mut [u8]) {
    let a = if call == 0 {
        swift_demangle::demangle(text, ceiling, ws, out)
    } else {
        swift_demangle::demangle_type(text, ceiling, ws, out)
    };
    let n = put_answer(to, a);
    put_bytes(to, out, n);
}

// The calls 2 and 3.
fn check(to: Stdout, call: usize, text: &[u8], ceiling: usize, ws: &mut [u32]) {
    let a = if call == 2 {
        swift_shape::shape(text, ceiling, ws)
    } else {
        swift_shape::shape_type(text, ceiling, ws)
    };
    put_answer(to, a);
}

// The calls 4 to 7.
// Kept: here and in `read`, `check` and `run_call`, a call's number is what a line of input says; an
// enum would be made from the same numbers.
fn stopped(
    call: usize,
    text: &[u8],
    ceiling: usize,
    k: usize,
    ws: &mut [u32],
    out: &mut [u32],
) -> Answer {
    match call {
        4 => swift_demangle::demangle_stopped(text, ceiling, k, ws, out),
        5 => swift_demangle::demangle_type_stopped(text, ceiling, k, ws, out),
        6 => swift_shape::shape_stopped(text, ceiling, k, ws, out),
        _ => swift_shape::shape_type_stopped(text, ceiling, k, ws, out),
    }
}

fn run_call(
    to: Stdout,
    call: usize,
    text: &[u8],
    ceiling: usize,
    k: usize,
    ws: &mut [u32],
    room: usize,
    bytes: &mut [u8],
    numbers: &mut [u32],
) {
    if call < 2 {
        let m = room.min(bytes.len());
        read(to, call, text, ceiling, ws, &mut bytes[0..m]);
        return;
    }
    if call < 4 {
        check(to, call, text, ceiling, ws);
        return;
    }
    let m = room.min(numbers.len());
    let a = stopped(call, text, ceiling, k, ws, &mut numbers[0..m]);
    let n = put_answer(to, a);
    put_numbers(to, numbers, n);
}

// Takes the number at the place, or `-` for 0, and the tab that follows it. A column that is
// neither is 0 and ends the line.
fn field(line: &mut Reader) -> usize {
    let value = if line.next_if(b'-') {
        0
    } else if let Ok(n) = line.natural() {
        n
    } else {
        line.at = line.text.len();
        0
    };
    line.next_if_any();
    value
}

fn nibble(b: u8) -> u8
    ensures { result ≤ 15 }
{
    match b {
        b'0'..=b'9' => b - b'0',
        b'a'..=b'f' => b - b'a' + 10,
        _ => 0,
    }
}

// The bytes that the hexadecimal digits from the place on stand for, as far as there is room;
// returns how many.
fn decode(line: &mut Reader, text: &mut [u8]) -> usize
    ensures { result ≤ length text.new }
{
    for (n, b) in text.iter_mut().enumerate() {
        let Some([high, low]) = line.take(2) else {
            return n;
        };
        *b = 16 * nibble(*high) + nibble(*low);
    }
    text.len()
}

fn run_case(
    to: Stdout,
    line: &[u8],
    ws: &mut [u32],
    bytes: &mut [u8],
    numbers: &mut [u32],
    text: &mut [u8],
) {
    let mut line = Reader { text: line, at: 0 };
    let call = field(&mut line);
    let ceiling = field(&mut line);
    let k = field(&mut line);
    let workspace = field(&mut line);
    let room = field(&mut line);
    let n = decode(&mut line, text);
    let w = workspace.min(ws.len());
    run_call(
        to,
        call,
        &text[..n],
        ceiling,
        k,
        &mut ws[..w],
        room,
        bytes,
        numbers,
    );
}

fn starts_with_letter(line: &[u8]) -> bool {
    line.first().is_some_and(|b| b'9' < *b)
}

fn answer(
    to: Stdout,
    line: &[u8],
    ws: &mut [u32],
    bytes: &mut [u8],
    numbers: &mut [u32],
    text: &mut [u8],
) {
    if starts_with_letter(line) {
        readers::answer(to, line);
        return;
    }
    run_case(to, line, ws, bytes, numbers, text);
}

fn run_line(
    to: Stdout,
    line: &[u8],
    ws: &mut [u32],
    bytes: &mut [u8],
    numbers: &mut [u32],
    text: &mut [u8],
) {
    answer(to, line, ws, bytes, numbers, text);
    write(to, b"\n");
}

fn run_lines(
    to: Stdout,
    all: &[u8],
    ws: &mut [u32],
    bytes: &mut [u8],
    numbers: &mut [u32],
    text: &mut [u8],
) {
    let mut at = 0;
    // Kept: after the last newline there is no line, and `split` would give an empty one.
    while at < all.len() {
        let end = line_forms::ends::line_end(all, at);
        run_line(to, &all[at..end], ws, bytes, numbers, text);
        at = end + 1;
    }
}

// All of standard input.
fn input() -> [u8; 1572864] {
    [0; 1572864]
}

// 64 × 16,384 numbers.
fn workspace() -> [u32; 1048576] {
    [4294967295; 1048576]
}

fn room() -> [u8; 65536] {
    [255; 65536]
}

fn stack() -> [u32; 12288] {
    [4294967295; 12288]
}

// Reads until all is full, the input ends or a read fails; returns how many bytes were read.
fn read_full(stdin: Stdin, all: &mut [u8]) -> usize
    ensures { result ≤ length all.new }
{
    let mut stdin = stdin;
    let mut done = 0;
    // Kept: a read fills as much of what is left as it likes.
    while done < all.len() {
        match stdin.read(&mut all[done..]) {
            Ok(0) => return done,
            Ok(n) => done += n,
            Err(_) => return done,
        }
    }
    done
}

fn main(rt: HostRuntime) {
    let mut all = input();
    let n = read_full(rt.stdin(), &mut all);
    let mut ws = workspace();
    let mut bytes = room();
    let mut numbers = stack();
    let mut text = room();
    run_lines(
        rt.stdout(),
        &all[0..n],
        &mut ws,
        &mut bytes,
        &mut numbers,
        &mut text,
    );
}
