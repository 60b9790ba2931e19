//! The names of tags and of attributes.
ghost use Rattle.std.specs.Prelude.{◌≡◌};
ghost use Rattle.markup.specs.Markup.{key_name, tag_name};

/// A tag.
#[derive(Clone, Copy)]
pub enum Tag {
    Svg,
    Path,
    Rect,
    Circle,
    Text,
    Title,
    Desc,
    Heading,
    Item,
}

/// An attribute of a tag.
#[derive(Clone, Copy)]
pub enum Key {
    Class,
    X,
    Y,
    Width,
    Height,
    Rx,
    Cx,
    Cy,
    R,
    /// The description of a path.
    Path,
    Fill,
    ViewBox,
    Role,
    Label,
    LabelledBy,
    Namespace,
    Id,
    Type,
    Least,
    Value,
    /// The place of a mark.
    Place,
    /// The line of the scenario that made the mark.
    Source,
    /// The store after the mark.
    Store,
    /// The processes in line after the mark.
    Queue,
}

impl Tag {
    /// Returns the name of the tag.
    pub(crate) fn name(self) -> &'static str
        ensures { result.now ≡ tag_name self }
    {
        match self {
            Tag::Svg => "svg",
            Tag::Path => "path",
            Tag::Rect => "rect",
            Tag::Circle => "circle",
            Tag::Text => "text",
            Tag::Title => "title",
            Tag::Desc => "desc",
            Tag::Heading => "h1",
            Tag::Item => "li",
        }
    }
}

impl Key {
    /// Returns the name of the attribute.
    pub(crate) fn name(self) -> &'static str
        ensures { result.now ≡ key_name self }
    {
        match self {
            Key::Class => "class",
            Key::X => "x",
            Key::Y => "y",
            Key::Width => "width",
            Key::Height => "height",
            Key::Rx => "rx",
            Key::Cx => "cx",
            Key::Cy => "cy",
            Key::R => "r",
            Key::Path => "d",
            Key::Fill => "fill",
            Key::ViewBox => "viewBox",
            Key::Role => "role",
            Key::Label => "aria-label",
            Key::LabelledBy => "aria-labelledby",
            Key::Namespace => "xmlns",
            Key::Id => "id",
            Key::Type => "type",
            Key::Least => "min",
            Key::Value => "value",
            Key::Place => "data-x",
            Key::Source => "data-l",
            Key::Store => "data-s",
            Key::Queue => "data-q",
        }
    }
}
