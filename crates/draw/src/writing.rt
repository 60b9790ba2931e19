//! Writing markup.
ghost use Rattle.std.specs.Prelude.{◌-◌, ◌^◌, ◌<◌, ◌++◌, IfSome, OnOk};
ghost use Rattle.picture.specs.markup.{EndsAll, lines_in};
ghost use Rattle.picture.specs.{band_text, lines_of_band};
ghost use Rattle.draw.specs.Canvases.{Draws, Writes};
ghost use Rattle.scenario.specs.files.{FailsAsWriting};

use picture::Markup;
use scenario::{Fault, Sink, write_all};

/// Writes markup.
///
/// # Errors
///
/// Returns [`Fault::Write`] if a call of the sink fails, and [`Fault::Memory`] if memory is lacking.
#[tactic(auto, using(crate::proofs::Drawn::draws_bytes, crate::proofs::Drawn::writes_bytes))]
pub fn write_markup<W: Sink>(markup: &Markup, output: &mut W) -> Result<(), Fault>
    requires { W.failures output.old < 2 ^ 64 - 1 }
    ensures written { OnOk result (Writes (W.taken output.old) (W.taken output.new) markup.now) }
    ensures drawn { OnOk result
        (EndsAll markup.now →
        Draws (W.taken output.old) (W.taken output.new) markup.now (lines_in markup.now)) }
    ensures fails { FailsAsWriting W.failures result output.old output.new }
{
    write_all(output, markup.as_slice())
}

/// Writes a band, if one is given.
#[tactic(auto, using(crate::proofs::Drawn::draws_no_band))]
pub(crate) fn write_band<W: Sink>(band: &Option<Markup>, output: &mut W) -> Result<(), Fault>
    requires { W.failures output.old < 2 ^ 64 - 1 }
    ensures drawn { OnOk result
        (IfSome band.now EndsAll →
        Draws (W.taken output.old) (W.taken output.new) (band_text band.now)
        (lines_of_band band.now)) }
    ensures fails { FailsAsWriting W.failures result output.old output.new }
{
    match band {
        Some(band) => write_markup(band, output),
        None => Ok(()),
    }
}

/// Writes a band, if one is given, and then the last band.
pub(crate) fn write_last<W: Sink>(
    band: &Option<Markup>,
    last: &Markup,
    output: &mut W,
) -> Result<(), Fault>
    requires { W.failures output.old < 2 ^ 64 - 1 }
    ensures drawn { OnOk result
        (IfSome band.now EndsAll → EndsAll last.now →
        Draws (W.taken output.old) (W.taken output.new) (band_text band.now ++ last.now)
        (lines_of_band band.now ++ lines_in last.now)) }
    ensures fails { FailsAsWriting W.failures result output.old output.new }
{
    write_band(band, output)?;
    write_markup(last, output)
}
