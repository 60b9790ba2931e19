//! The text of a scenario's result on a board.
use crate::drives::DriveResult;
use board::{Closing, Image};
use model::Placed;
use plain_store::{NestedTypes, Setup};
use std::fmt;

/// The result of a scenario on a board. The text has the lines of the setup, a line for each drive, one for each finished call,
/// list after list, and one with the image.
#[derive(Drop)]
pub struct BoardResult<'a> {
    pub setup: &'a Setup,
    /// The drives of the lines that were carried out by turns, in their order.
    pub drives: Vec<DriveResult>,
    pub closing: Closing,
}

impl fmt::Display for BoardResult<'_> {
    fn fmt<W: fmt::Write>(&self, f: &mut fmt::Formatter<W>) -> fmt::Result {
        setup_lines(f, self.setup)?;
        for drive in &self.drives {
            write!(f, "{drive}\n")?;
        }
        for (process, calls) in self.closing.answers.iter().enumerate() {
            call_lines(f, process, calls)?;
        }
        image_line(f, &self.closing.image)
    }
}

/// The numbers of a setup, and the pairs that its store opens with.
fn setup_lines<W: fmt::Write>(f: &mut fmt::Formatter<W>, setup: &Setup) -> fmt::Result {
    write!(f, "version {} processes {}", setup.version, setup.processes)?;
    write!(
        f,
        " tickets {} stamps {}",
        setup.ticket_bits, setup.stamp_bits
    )?;
    write!(f, " slots {}\n", setup.slots)?;
    for place in 0..setup.opening.len() {
        if let Some((name, value)) = setup.opening.entry(place) {
            write!(f, "open {name} {value}\n")?;
        }
    }
    Ok(())
}

fn call_lines<W: fmt::Write>(
    f: &mut fmt::Formatter<W>,
    process: usize,
    calls: &[Placed],
) -> fmt::Result {
    for call in calls {
        write!(f, "{process} ")?;
        call_words(f, call)?;
    }
    Ok(())
}

/// The place of a finished call, its command and its answer, `-` for what is not there.
fn call_words<W: fmt::Write>(f: &mut fmt::Formatter<W>, call: &Placed) -> fmt::Result {
    let _nested: NestedTypes = None;
    match call.place {
        Some(place) => write!(f, "{place}")?,
        None => f.write_str("-")?,
    }
    write!(f, " {} = ", call.command)?;
    match call.answer {
        Some(answer) => write!(f, "{answer}\n"),
        None => f.write_str("-\n"),
    }
}

/// The bytes of an image, each by two hexadecimal digits.
fn image_line<W: fmt::Write>(f: &mut fmt::Formatter<W>, image: &Image) -> fmt::Result {
    f.write_str("image ")?;
    for byte in image.bytes() {
        write!(f, "{byte:02x}")?;
    }
    f.write_str("\n")
}
