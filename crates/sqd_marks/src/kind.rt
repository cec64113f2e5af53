/// The form of a whole mark.
#[derive(Clone, Copy, Debug, PartialEq, Eq)]
pub enum Kind {
    /// `<`, a name, attributes and `>`.
    Start,
    /// `<`, a name, attributes and `/>`.
    Empty,
    /// `</`, a name and `>`.
    End,
    /// `<!--` up to `-->`.
    Comment,
    /// `<?` up to `?>`.
    Declaration,
    /// `<!DOCTYPE`, which may stand in no text.
    Doctype,
    /// `<![CDATA[`, which may stand in no text.
    Cdata,
}
