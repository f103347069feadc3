// The check of a part of a text that has passed the checks before a run. Places are those of the
// whole text.
ghost use Rattle.std.specs.Prelude.{◌≡◌, true, ◌-◌, ◌*◌, ◌≤◌, length, take, drop};
ghost use Rattle.definition.specs.Calls as Calls;
ghost use Rattle.definition.specs.Check as Check;
ghost use Rattle.definition.specs.Enums as Enums;
ghost use Rattle.definition.specs.Text as Text;
ghost use Rattle.call_endings.specs.Answers.{Answers};
ghost use Rattle.machine.specs.RunEnds.{kinds_of};
ghost use Rattle.machine.specs.Beyond.{Beyond};
ghost use Rattle.text_symbols.specs.Symbol as Symbols;

use crate::{check_admitted, check_stopped_admitted};
use call_admission::part;
use definition::Answer;
use machine::runs::Final;

// Checks all of text[start..end].
pub fn check_body(
    text: &[u8],
    start: usize,
    end: usize,
    what: Final,
    ceiling: usize,
    workspace: &mut [u32],
) -> Answer
    requires { (start ≤ end) × (end ≤ length text.now) × (length text.now ≤ 65535) × (ceiling ≤ 65536) × (8 * ceiling ≤ length workspace.old) × (Text.well_formed (take (end - start) (drop start text.now)) ≡ true) }
    ensures { (Enums.values result ≡ (Check.whole ceiling (kinds_of what) (Symbols.symbol text.now start end)).values) × Beyond 8 ceiling workspace.old workspace.new }
{
    check_admitted(part(text, start, end, ceiling), what, workspace)
}

// Checks text[start..end], stops after k operators, and writes the entries of the stack.
pub fn check_stopped_body(
    text: &[u8],
    start: usize,
    end: usize,
    ceiling: usize,
    k: usize,
    workspace: &mut [u32],
    out: &mut [u32],
) -> Answer
    requires { (start ≤ end) × (end ≤ length text.now) × (length text.now ≤ 65535) × (ceiling ≤ 65536) × (8 * ceiling ≤ length workspace.old) × (Text.well_formed (take (end - start) (drop start text.now)) ≡ true) }
    ensures { Answers (Calls.within (length out.old) (Check.stopped_after ceiling k (Symbols.symbol text.now start end))) out.old out.new result × Beyond 8 ceiling workspace.old workspace.new }
{
    check_stopped_admitted(part(text, start, end, ceiling), k, workspace, out)
}
