//! The title of a page, by which a browser names its window.
ghost use Rattle.std.specs.Prelude.{◌≡◌, MatchOption, None, Some};
ghost use Rattle.picture.specs.Titles.{comment_of, title_of};

use bstr::ByteSlice;

/// Returns the text of a line that is a comment: what comes after `# `.
fn comment(line: &[u8]) -> Option<&[u8]>
    ensures { MatchOption result (comment_of line.now ≡ None)
        (λ comment. comment_of line.now ≡ Some comment.now) }
{
    line.strip_prefix(b"# ")
}

/// Returns the title of a page: the first comment among the lines that it lists, and its heading if they have none.
pub(crate) fn page_title<'a>(heading: &'a [u8], printed: &'a [u8]) -> &'a [u8]
    ensures { result.now ≡ title_of heading.now printed.now }
{
    for line in printed.lines() {
        if let Some(comment) = comment(line) {
            return comment;
        }
    }
    heading
}
