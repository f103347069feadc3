// The reading of a part of a text that has passed the checks before a run. Places are those of the
// whole text.
ghost use Rattle.std.specs.Prelude.{◌≡◌, true, ◌-◌, ◌*◌, ◌≤◌, length, take, drop};
ghost use Rattle.definition.specs.Calls as Calls;
ghost use Rattle.definition.specs.Reading as Reading;
ghost use Rattle.definition.specs.Text as Text;
ghost use Rattle.call_endings.specs.Answers.{Answers};
ghost use Rattle.machine.specs.Beyond.{Beyond};
ghost use Rattle.machine.specs.RunEnds.{kinds_of};
ghost use Rattle.text_symbols.specs.Symbol as Symbols;

use crate::{read_admitted, read_stopped_admitted};
use call_admission::part;
use definition::Answer;
use machine::runs::Final;

// Reads all of text[start..end], and writes its text, with what stands for text[end..], to the front
// of out.
pub fn read_body(
    text: &[u8],
    start: usize,
    end: usize,
    what: Final,
    ceiling: usize,
    workspace: &mut [u32],
    out: &mut [u8],
) -> Answer
    requires { (start ≤ end) × (end ≤ length text.now) × (length text.now ≤ 65535) × (ceiling ≤ 65536) × (64 * ceiling ≤ length workspace.old) × (Text.well_formed (take (end - start) (drop start text.now)) ≡ true) }
    ensures { Answers (Calls.within (length out.old) (Reading.whole ceiling (kinds_of what) (Symbols.symbol text.now start end))) out.old out.new result × Beyond 64 ceiling workspace.old workspace.new }
{
    read_admitted(part(text, start, end, ceiling), what, workspace, out)
}

// Reads text[start..end], stops after k operators, and writes the entries of the stack.
pub fn read_stopped_body(
    text: &[u8],
    start: usize,
    end: usize,
    ceiling: usize,
    k: usize,
    workspace: &mut [u32],
    out: &mut [u32],
) -> Answer
    requires { (start ≤ end) × (end ≤ length text.now) × (length text.now ≤ 65535) × (ceiling ≤ 65536) × (64 * ceiling ≤ length workspace.old) × (Text.well_formed (take (end - start) (drop start text.now)) ≡ true) }
    ensures { Answers (Calls.within (length out.old) (Reading.stopped_after ceiling k (Symbols.symbol text.now start end))) out.old out.new result × Beyond 64 ceiling workspace.old workspace.new }
{
    read_stopped_admitted(part(text, start, end, ceiling), k, workspace, out)
}
