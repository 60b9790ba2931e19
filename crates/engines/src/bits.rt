//! The command `bits`: the calls of a file on one safe bit, in order.
ghost use Rattle.std.specs.Prelude.{◌≡◌, ◌^◌, ◌-◌, ◌<◌, true, IfOk, Ok};
ghost use Rattle.std.specs.String.{string_bytes};
ghost use Rattle.scenario.specs.files.Engines.{Ran, streams};
ghost use Rattle.scenario.specs.files.{ReadsFront};
ghost use Rattle.engines.specs.BitCells.{can_take, made, made_text, bit_after, bit_line_text};
ghost use Rattle.engines.specs.Bits.{bits_printed, bits_text};

use safe_bit::SafeBit;
use scenario::{BitLine, Fault, Sink, Source, read_bits, read_input, write_all};
use std::alloc::{AllocError, Global};

/// Returns whether the line's call may be made on the bit now.
fn may_make(bit: &SafeBit, line: BitLine) -> bool
    ensures { result ≡ can_take bit.now line }
{
    match line {
        BitLine::Write(_) => !bit.writing(),
        BitLine::End | BitLine::Settle(_) => bit.writing(),
        BitLine::Read => !bit.reading(),
        BitLine::Value(_) | BitLine::Drop => bit.reading(),
    }
}

/// Makes the line's call, and returns the text that is printed.
fn make(bit: &mut SafeBit, line: BitLine) -> &'static str
    requires { can_take bit.old line ≡ true }
    ensures text { result.now ≡ made_text bit.old line }
    ensures after { bit.new ≡ made bit.old line }
{
    match line {
        BitLine::Write(value) => bit.begin_write(value),
        BitLine::End => bit.end_write(),
        BitLine::Settle(value) => bit.settle(value),
        BitLine::Read => bit.begin_read(),
        BitLine::Value(flick) => return if bit.end_read(flick) { "1\n" } else { "0\n" },
        BitLine::Drop => bit.drop_read(),
    }
    ""
}

/// Carries out a line, and returns the text that is printed: a call out of turn is refused.
fn do_line(bit: &mut SafeBit, line: BitLine) -> &'static str
    ensures text { result.now ≡ bit_line_text bit.old line }
    ensures after { bit.new ≡ bit_after bit.old line }
{
    if may_make(bit, line) {
        make(bit, line)
    } else {
        "refused\n"
    }
}

/// Returns the text of the lines of a file.
#[tactic(auto, using(crate::proofs::BitLists::bits_text_more))]
fn text_of(alloc: Global, lines: &[BitLine]) -> Result<String, AllocError>
    ensures { IfOk result (λ text. string_bytes text ≡ bits_printed lines.now) }
{
    let mut bit = SafeBit::new(false);
    let mut text = String::new(alloc);
    for line in lines {
        text.push_str(do_line(&mut bit, *line))?;
    }
    Ok(text)
}

/// Reads a whole bits file, and then writes a line for each read that ended and each call that was refused.
/// However it ends, it takes at most `INPUT_LIMIT` bytes from the start of the input.
///
/// # Errors
///
/// Returns the fault of a line, [`Fault::Read`], [`Fault::Memory`] or [`Fault::Write`]. Only after [`Fault::Memory`] or
/// [`Fault::Write`] may the start of the text have been written.
pub fn run_bits<R: Source, W: Sink>(
    alloc: Global,
    input: &mut R,
    output: &mut W,
) -> Result<(), Fault>
    requires reads { R.failures input.old < 2 ^ 64 - 1 }
    requires writes { W.failures output.old < 2 ^ 64 - 1 }
    ensures ran { Ran bits_text result
        (streams ⟦<R as Source>⟧ ⟦<W as Sink>⟧ input.old output.old)
        (streams ⟦<R as Source>⟧ ⟦<W as Sink>⟧ input.new output.new) }
    ensures input { ReadsFront (R.to_come input.old) (R.to_come input.new) }
{
    let file = read_input(alloc, input)?;
    let lines = read_bits(alloc, file.as_slice())?;
    let text = text_of(alloc, lines.as_slice())?;
    write_all(output, text.as_bytes())
}
