//! The parts of a page or a picture around the bands: the heading, the styles, the legend, the scenario and the slider.
ghost use Rattle.std.specs.Prelude.{◌≡◌, [], ◌++◌, codes, IfOk, OnOk, Some};
ghost use Rattle.picture.specs.Adding.{Begins};
ghost use Rattle.std.specs.String.{string_bytes};
ghost use Rattle.markup.specs.{lines_in, opens_in, reading};
ghost use Rattle.picture.specs.Pages.{page_names, picture_names};
ghost use Rattle.picture.specs.declared.constants.TheConstants.{PATTERNS, STYLE};
ghost use Rattle.picture.specs.Sheets.{body_front, ground_of, item_of, legend_front, legend_tag, list_of, page_back, page_back_by, page_begun, page_front, page_front_by, paper_of, picture_back, picture_back_by, picture_front, picture_front_by, slider_of, styles_of, svg_front, svg_tag, titles_of, view_of};

use crate::constants::{PAGE_STYLE, PATTERNS, STYLE};
use crate::headings::heading;
use crate::reads::{Reads, legend_height};
use crate::subjects::Subject;
use crate::titles::page_title;
use bstr::ByteSlice;
use markup::{Key, Markup, Tag, class, number, words};
use model::Setup;
use std::alloc::{AllocError, Global};

/// The top of the first band of one picture.
pub const FIRST_BAND: u64 = 34;

/// Returns the start of the page of a run or a record, up to its bands, where `printed` has the lines that it lists.
pub fn page_head(
    alloc: Global,
    subject: Subject,
    setup: &Setup,
    printed: &[u8],
    reads: Reads,
) -> Result<Markup, AllocError>
    ensures draws { IfOk result
        (λ markup. markup ≡ page_front subject setup.now printed.now reads) }
    ensures lines { IfOk result (λ markup. lines_in markup ≡ []) }
    ensures elements { IfOk result (λ markup. opens_in markup (Some []) ≡ Some page_names) }
{
    let heading = heading(alloc, subject, setup)?;
    let mut markup = Markup::new(alloc);
    add_page_front(
        subject,
        setup.processes,
        heading.as_slice(),
        printed,
        reads,
        &mut markup,
    )?;
    Ok(markup)
}

/// Adds it to empty markup, under this heading. It is a function of its own, because a value that is dropped at each way
/// out of a function takes long to prove.
pub(crate) fn add_page_front(
    subject: Subject,
    processes: u8,
    heading: &[u8],
    printed: &[u8],
    reads: Reads,
    markup: &mut Markup,
) -> Result<(), AllocError>
    requires fresh { markup.old ≡ [] }
    ensures draws { OnOk result
        (markup.new ≡ page_front_by subject processes heading.now printed.now reads) }
    ensures lines { OnOk result (lines_in markup.new ≡ []) }
    ensures elements { OnOk result (opens_in markup.new (Some []) ≡ Some page_names) }
{
    begin_page(processes, page_title(heading, printed), markup)?;
    begin_body(subject, heading, printed, reads, markup)
}

/// Adds the head of a page with this title to empty markup, and begins the body.
fn begin_page(processes: u8, title: &[u8], markup: &mut Markup) -> Result<(), AllocError>
    requires fresh { markup.old ≡ [] }
    ensures draws { OnOk result (markup.new ≡ page_begun processes title.now) }
    ensures lines { OnOk result (lines_in markup.new ≡ []) }
    ensures elements { OnOk result (opens_in markup.new (Some []) ≡ Some page_names) }
{
    markup.frame(
        "<!doctype html>\n<html lang=\"en\"><head><meta charset=\"utf-8\">\n<meta name=\"viewport\" content=\"width=device-width\">\n",
    )?;
    markup.add_text_element(Tag::Title, &[], title)?;
    markup.frame("\n<style>\n")?;
    add_styles(processes, markup)?;
    markup.frame("</style></head><body>\n")
}

/// Adds the body of a page up to its bands.
fn begin_body(
    subject: Subject,
    heading: &[u8],
    printed: &[u8],
    reads: Reads,
    markup: &mut Markup,
) -> Result<(), AllocError>
    ensures draws { OnOk result
        (markup.new ≡ markup.old ++ body_front subject heading.now printed.now reads) }
    ensures lines { OnOk result (lines_in markup.new ≡ lines_in markup.old) }
    ensures elements { OnOk result (opens_in markup.old (Some []) ≡ Some page_names
        → opens_in markup.new (Some []) ≡ Some page_names) }
{
    markup.add_text_element(Tag::Heading, &[], heading)?;
    begin_legend(subject, reads, markup)?;
    subject.begin_list(markup)?;
    list_lines(printed, markup)?;
    markup.frame("</ol></details>\n")
}

/// Adds the styles of a page, and its layout in print.
fn add_styles(processes: u8, markup: &mut Markup) -> Result<(), AllocError>
    ensures draws { OnOk result (markup.new ≡ markup.old ++ styles_of processes) }
    ensures read { OnOk result (reading markup.new ≡ reading markup.old) }
{
    add_style(markup)?;
    markup.constant("\n")?;
    markup.constant(PAGE_STYLE)?;
    add_paper(processes, markup)
}

/// Adds the style of all pictures.
fn add_style(markup: &mut Markup) -> Result<(), AllocError>
    ensures draws { OnOk result (markup.new ≡ markup.old ++ STYLE.now) }
    ensures read { OnOk result (reading markup.new ≡ reading markup.old) }
{
    markup.constant(STYLE)
}

/// Adds the patterns of all pictures.
fn add_patterns(markup: &mut Markup) -> Result<(), AllocError>
    ensures draws { OnOk result (markup.new ≡ markup.old ++ (PATTERNS.now ++ codes "\n")) }
    ensures read { OnOk result (reading markup.new ≡ reading markup.old) }
{
    markup.constant(PATTERNS)?;
    markup.constant("\n")
}

/// Adds the layout of a page in print.
fn add_paper(processes: u8, markup: &mut Markup) -> Result<(), AllocError>
    ensures draws { OnOk result (markup.new ≡ markup.old ++ paper_of processes) }
    ensures read { OnOk result (reading markup.new ≡ reading markup.old) }
{
    if processes > 10 {
        markup.constant("\n@page{size:A4 portrait;margin:10mm}\n")
    } else {
        markup.constant("\n@page{size:A4 landscape;margin:10mm}\n")
    }
}

/// Adds the start of the legend of a page, without its end.
fn begin_legend(subject: Subject, reads: Reads, markup: &mut Markup) -> Result<(), AllocError>
    ensures draws { OnOk result (markup.new ≡ markup.old ++ legend_front subject reads) }
    ensures read { Begins result markup.old markup.new (codes "svg") }
{
    markup.constant("\n")?;
    enter_legend(reads, markup)?;
    markup.constant("\n")?;
    add_patterns(markup)?;
    subject.add_legend(reads, markup)
}

/// Adds the tag of the legend.
fn enter_legend(reads: Reads, markup: &mut Markup) -> Result<(), AllocError>
    ensures draws { OnOk result (markup.new ≡ markup.old ++ legend_tag reads) }
    ensures read { Begins result markup.old markup.new (codes "svg") }
{
    let view = view(markup.alloc(), legend_height(reads))?;
    markup.enter(
        Tag::Svg,
        &[
            words(Key::ViewBox, view.as_bytes()),
            words(Key::Role, b"img"),
            words(Key::Label, b"Legend"),
        ],
    )
}

/// Lists the lines of the printed scenario, and its end.
fn list_lines(printed: &[u8], markup: &mut Markup) -> Result<(), AllocError>
    ensures draws { OnOk result (markup.new ≡ markup.old ++ list_of printed.now) }
    ensures read { OnOk result (reading markup.new ≡ reading markup.old) }
{
    for line in printed.lines() {
        list_line(line, markup)?;
    }
    list_line(b"(end)", markup)
}

/// Lists a line.
fn list_line(line: &[u8], markup: &mut Markup) -> Result<(), AllocError>
    ensures draws { OnOk result (markup.new ≡ markup.old ++ item_of line.now) }
    ensures read { OnOk result (reading markup.new ≡ reading markup.old) }
{
    markup.add_text_element(Tag::Item, &[], line)?;
    markup.constant("\n")
}

/// Returns the end of a page, after its bands, where `opening` is the opening store.
pub fn page_end(alloc: Global, opening: &[u8]) -> Result<Markup, AllocError>
    ensures draws { IfOk result (λ markup. markup ≡ page_back opening.now) }
    ensures lines { IfOk result (λ markup. lines_in markup ≡ []) }
    ensures elements { IfOk result (λ markup. opens_in markup (Some page_names) ≡ Some []) }
{
    let mut markup = Markup::new(alloc);
    add_page_end(Subject::Run, opening, &mut markup)?;
    Ok(markup)
}

/// Adds the end of a page to empty markup.
pub(crate) fn add_page_end(
    subject: Subject,
    opening: &[u8],
    markup: &mut Markup,
) -> Result<(), AllocError>
    requires fresh { markup.old ≡ [] }
    ensures draws { OnOk result (markup.new ≡ page_back_by subject opening.now) }
    ensures lines { OnOk result (lines_in markup.new ≡ []) }
    ensures elements { OnOk result (opens_in markup.new (Some page_names) ≡ Some []) }
{
    markup.frame("<div id=\"now\"><div>")?;
    add_slider(opening, markup)?;
    markup.frame("<output id=\"said\" for=\"at\"></output></div></div>\n<script>")?;
    subject.add_script(markup)?;
    markup.frame("</script>\n</body></html>\n")
}

/// Adds the slider, which selects a line, where `opening` is the opening store.
fn add_slider(opening: &[u8], markup: &mut Markup) -> Result<(), AllocError>
    ensures draws { OnOk result (markup.new ≡ markup.old ++ slider_of opening.now) }
    ensures read { OnOk result (reading markup.new ≡ reading markup.old) }
{
    markup.input(&[
        words(Key::Id, b"at"),
        words(Key::Type, b"range"),
        words(Key::Least, b"0"),
        words(Key::Value, b"0"),
        words(Key::Label, b"Line of the run"),
        words(Key::Store, opening),
    ])
}

/// Returns the start of one picture of a run or a record, where `bands` is the sum of the heights of its bands.
pub fn picture_head(
    alloc: Global,
    subject: Subject,
    setup: &Setup,
    bands: u64,
    reads: Reads,
) -> Result<Markup, AllocError>
    ensures draws { IfOk result (λ markup. markup ≡ picture_front subject setup.now bands reads) }
    ensures lines { IfOk result (λ markup. lines_in markup ≡ []) }
    ensures elements { IfOk result (λ markup. opens_in markup (Some []) ≡ Some picture_names) }
{
    let heading = heading(alloc, subject, setup)?;
    let mut markup = Markup::new(alloc);
    add_picture_front(subject, heading.as_slice(), bands, reads, &mut markup)?;
    Ok(markup)
}

/// Adds the start of one picture to empty markup, under this heading.
pub(crate) fn add_picture_front(
    subject: Subject,
    heading: &[u8],
    bands: u64,
    reads: Reads,
    markup: &mut Markup,
) -> Result<(), AllocError>
    requires fresh { markup.old ≡ [] }
    ensures draws { OnOk result (markup.new ≡ picture_front_by subject heading.now bands reads) }
    ensures lines { OnOk result (lines_in markup.new ≡ []) }
    ensures elements { OnOk result (opens_in markup.new (Some []) ≡ Some picture_names) }
{
    let height = bands
        .saturating_add(legend_height(reads))
        .saturating_add(FIRST_BAND + 8);
    begin_picture(height, markup)?;
    add_titles(subject, heading, markup)?;
    markup.frame("\n<style>\n")?;
    add_style(markup)?;
    markup.frame("\n</style>\n")?;
    add_patterns(markup)?;
    add_ground(height, heading, markup)
}

/// Begins one picture of this height.
fn begin_picture(height: u64, markup: &mut Markup) -> Result<(), AllocError>
    ensures draws { OnOk result (markup.new ≡ markup.old ++ svg_front height) }
    ensures read { Begins result markup.old markup.new (codes "svg") }
{
    markup.constant("<?xml version=\"1.0\" encoding=\"UTF-8\"?>\n")?;
    enter_picture(height, markup)?;
    markup.constant("\n")
}

/// Returns the visible part of a picture's plane, down to this height.
pub(crate) fn view(alloc: Global, height: u64) -> Result<String, AllocError>
    ensures { IfOk result (λ view. string_bytes view ≡ view_of height) }
{
    format!(in alloc; "0 0 1200 {height}")
}

/// Adds the tag of one picture.
fn enter_picture(height: u64, markup: &mut Markup) -> Result<(), AllocError>
    ensures draws { OnOk result (markup.new ≡ markup.old ++ svg_tag height) }
    ensures read { Begins result markup.old markup.new (codes "svg") }
{
    let view = view(markup.alloc(), height)?;
    markup.enter(
        Tag::Svg,
        &[
            words(Key::Namespace, b"http://www.w3.org/2000/svg"),
            number(Key::Width, 1200),
            number(Key::Height, height),
            words(Key::ViewBox, view.as_bytes()),
            words(Key::Role, b"group"),
            words(Key::LabelledBy, b"t d"),
        ],
    )
}

/// Adds the title of one picture, and its description.
fn add_titles(subject: Subject, heading: &[u8], markup: &mut Markup) -> Result<(), AllocError>
    ensures draws { OnOk result (markup.new ≡ markup.old ++ titles_of subject heading.now) }
    ensures read { OnOk result (reading markup.new ≡ reading markup.old) }
{
    markup.add_text_element(Tag::Title, &[words(Key::Id, b"t")], heading)?;
    markup.constant("\n")?;
    markup.add_text_element(Tag::Desc, &[words(Key::Id, b"d")], subject.description())
}

/// Adds the ground of one picture of this height, and its heading.
fn add_ground(height: u64, heading: &[u8], markup: &mut Markup) -> Result<(), AllocError>
    ensures draws { OnOk result (markup.new ≡ markup.old ++ ground_of height heading.now) }
    ensures read { OnOk result (reading markup.new ≡ reading markup.old) }
{
    markup.add_empty_element(
        Tag::Rect,
        &[
            number(Key::Width, 1200),
            number(Key::Height, height),
            words(Key::Fill, b"#fff"),
        ],
    )?;
    markup.add_text_element(
        Tag::Text,
        &[number(Key::X, 8), number(Key::Y, 20), class("lane")],
        heading,
    )?;
    markup.constant("\n")
}

/// Returns the end of one picture, where `bands` is the sum of the heights of its bands.
pub fn picture_end(alloc: Global, bands: u64, reads: Reads) -> Result<Markup, AllocError>
    ensures draws { IfOk result (λ markup. markup ≡ picture_back bands reads) }
    ensures lines { IfOk result (λ markup. lines_in markup ≡ []) }
    ensures elements { IfOk result (λ markup. opens_in markup (Some picture_names) ≡ Some []) }
{
    end_picture(alloc, Subject::Run, bands, reads)
}

/// Returns the end of one picture of a subject.
pub(crate) fn end_picture(
    alloc: Global,
    subject: Subject,
    bands: u64,
    reads: Reads,
) -> Result<Markup, AllocError>
    ensures draws { IfOk result (λ markup. markup ≡ picture_back_by subject bands reads) }
    ensures lines { IfOk result (λ markup. lines_in markup ≡ []) }
    ensures elements { IfOk result (λ markup. opens_in markup (Some picture_names) ≡ Some []) }
{
    let y = bands.saturating_add(FIRST_BAND);
    let mut markup = Markup::new(alloc);
    markup.lower(y)?;
    subject.add_legend(reads, &mut markup)?;
    markup.frame("\n</g></svg>\n")?;
    Ok(markup)
}
