// Each line of standard input is a symbol. Its text, or its refusal, is a line of standard output
// (crates/line_forms/specs/Lines.antt).
#![tactic(auto)]

use line_forms::Asked;

// Kept: two programs have two functions `main`; each is one call of `line_stream`.
fn main(rt: HostRuntime) {
    line_stream::answer_input(
        Asked::Name,
        &mut rt.stdin(),
        &mut rt.stdout(),
        &mut rt.stderr(),
    );
}
