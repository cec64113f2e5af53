ghost use Rattle.std.specs.Prelude.{◌≡◌, Some, None, cond, eqb};
ghost use Rattle.sqd_scan.specs.Scanning;

use sqd_marks::{Kind, begins_name, is_blank, is_in_name};

const DOCTYPE: &[u8] = b"DOCTYPE";

const CDATA: &[u8] = b"[CDATA[";

/// How far a mark has come: what its last byte was.
#[derive(Clone, Copy)]
pub enum Stage {
    Begin,
    Open,
    Name,
    Space,
    AttributeName,
    AttributeGap,
    Equals,
    Value(u8),
    ValueEnd,
    Slash,
    EndOpen,
    EndName,
    EndGap,
    Bang,
    Dash,
    InComment,
    OneDash,
    TwoDashes,
    InDoctype(usize),
    InCdata(usize),
    InDeclaration,
    Question,
    Done(Kind),
}

/// The stage after a byte, where a mark may go on with it.
pub fn step(stage: Stage, b: u8) -> Option<Stage>
    ensures { result ≡ Scanning.step stage b }
{
    match stage {
        Stage::Begin => only(b, b'<', Stage::Open),
        Stage::Open => opened(b),
        Stage::Name => named(b),
        Stage::Space => spaced(b),
        Stage::AttributeName => attribute_named(b),
        Stage::AttributeGap => before_equals(b),
        Stage::Equals => before_value(b),
        Stage::Value(quote) => in_value(quote, b),
        Stage::ValueEnd => after_part(b),
        Stage::Slash => only(b, b'>', Stage::Done(Kind::Empty)),
        Stage::EndOpen => end_opened(b),
        Stage::EndName => end_named(b),
        Stage::EndGap => in_end_gap(b),
        Stage::Bang => after_bang(b),
        Stage::Dash => only(b, b'-', Stage::InComment),
        Stage::InComment => Some(in_comment(b)),
        Stage::OneDash => Some(after_dash(b)),
        Stage::TwoDashes => Some(after_dashes(b)),
        Stage::InDoctype(at) => in_doctype(at, b),
        Stage::InCdata(at) => in_cdata(at, b),
        Stage::InDeclaration => Some(in_declaration(b)),
        Stage::Question => Some(after_question(b)),
        Stage::Done(_) => None,
    }
}

// One byte alone goes on.
fn only(b: u8, wanted: u8, next: Stage) -> Option<Stage>
    ensures { result ≡ cond (eqb b wanted) (Some next) None }
{
    if b == wanted { Some(next) } else { None }
}

// Behind `<`.
fn opened(b: u8) -> Option<Stage>
    ensures { result ≡ Scanning.step Stage.Open b }
{
    match b {
        _ if begins_name(b) => Some(Stage::Name),
        b'/' => Some(Stage::EndOpen),
        b'!' => Some(Stage::Bang),
        b'?' => Some(Stage::InDeclaration),
        _ => None,
    }
}

// In the name of a tag.
fn named(b: u8) -> Option<Stage>
    ensures { result ≡ Scanning.step Stage.Name b }
{
    if is_in_name(b) {
        Some(Stage::Name)
    } else {
        after_part(b)
    }
}

// Behind a blank of a tag.
fn spaced(b: u8) -> Option<Stage>
    ensures { result ≡ Scanning.step Stage.Space b }
{
    match b {
        _ if is_blank(b) => Some(Stage::Space),
        _ if begins_name(b) => Some(Stage::AttributeName),
        _ => after_part(b),
    }
}

// Behind a name or a value of a tag.
fn after_part(b: u8) -> Option<Stage>
    ensures { result ≡ Scanning.step Stage.ValueEnd b }
{
    match b {
        _ if is_blank(b) => Some(Stage::Space),
        b'>' => Some(Stage::Done(Kind::Start)),
        b'/' => Some(Stage::Slash),
        _ => None,
    }
}

// In the name of an attribute.
fn attribute_named(b: u8) -> Option<Stage>
    ensures { result ≡ Scanning.step Stage.AttributeName b }
{
    if is_in_name(b) {
        Some(Stage::AttributeName)
    } else {
        before_equals(b)
    }
}

// Behind the name of an attribute.
fn before_equals(b: u8) -> Option<Stage>
    ensures { result ≡ Scanning.step Stage.AttributeGap b }
{
    match b {
        _ if is_blank(b) => Some(Stage::AttributeGap),
        b'=' => Some(Stage::Equals),
        _ => None,
    }
}

// Behind `=`.
fn before_value(b: u8) -> Option<Stage>
    ensures { result ≡ Scanning.step Stage.Equals b }
{
    match b {
        _ if is_blank(b) => Some(Stage::Equals),
        b'"' | b'\'' => Some(Stage::Value(b)),
        _ => None,
    }
}

// In a value.
fn in_value(quote: u8, b: u8) -> Option<Stage>
    ensures { result ≡ Scanning.step (Stage.Value quote) b }
{
    match b {
        _ if b == quote => Some(Stage::ValueEnd),
        b'<' => None,
        _ => Some(Stage::Value(quote)),
    }
}

// Behind `</`.
fn end_opened(b: u8) -> Option<Stage>
    ensures { result ≡ Scanning.step Stage.EndOpen b }
{
    if begins_name(b) {
        Some(Stage::EndName)
    } else {
        None
    }
}

// In the name of an end mark.
fn end_named(b: u8) -> Option<Stage>
    ensures { result ≡ Scanning.step Stage.EndName b }
{
    if is_in_name(b) {
        Some(Stage::EndName)
    } else {
        in_end_gap(b)
    }
}

// Behind the name of an end mark.
fn in_end_gap(b: u8) -> Option<Stage>
    ensures { result ≡ Scanning.step Stage.EndGap b }
{
    match b {
        _ if is_blank(b) => Some(Stage::EndGap),
        b'>' => Some(Stage::Done(Kind::End)),
        _ => None,
    }
}

// Behind `<!`.
fn after_bang(b: u8) -> Option<Stage>
    ensures { result ≡ Scanning.step Stage.Bang b }
{
    match b {
        b'-' => Some(Stage::Dash),
        b'D' => Some(Stage::InDoctype(1)),
        b'[' => Some(Stage::InCdata(1)),
        _ => None,
    }
}

// In a comment, behind no `-`.
fn in_comment(b: u8) -> Stage
    ensures { Some result ≡ Scanning.step Stage.InComment b }
{
    match b {
        b'-' => Stage::OneDash,
        _ => Stage::InComment,
    }
}

// In a comment, behind one `-`.
fn after_dash(b: u8) -> Stage
    ensures { Some result ≡ Scanning.step Stage.OneDash b }
{
    match b {
        b'-' => Stage::TwoDashes,
        _ => Stage::InComment,
    }
}

// In a comment, behind two `-` or more.
fn after_dashes(b: u8) -> Stage
    ensures { Some result ≡ Scanning.step Stage.TwoDashes b }
{
    match b {
        b'>' => Stage::Done(Kind::Comment),
        b'-' => Stage::TwoDashes,
        _ => Stage::InComment,
    }
}

// In `<!DOCTYPE`.
fn in_doctype(at: usize, b: u8) -> Option<Stage>
    ensures { result ≡ Scanning.step (Stage.InDoctype at) b }
{
    if at < DOCTYPE.len() && b == DOCTYPE[at] {
        if at == DOCTYPE.len() - 1 {
            Some(Stage::Done(Kind::Doctype))
        } else {
            Some(Stage::InDoctype(at + 1))
        }
    } else {
        None
    }
}

// In `<![CDATA[`.
fn in_cdata(at: usize, b: u8) -> Option<Stage>
    ensures { result ≡ Scanning.step (Stage.InCdata at) b }
{
    if at < CDATA.len() && b == CDATA[at] {
        if at == CDATA.len() - 1 {
            Some(Stage::Done(Kind::Cdata))
        } else {
            Some(Stage::InCdata(at + 1))
        }
    } else {
        None
    }
}

// In a declaration, behind no `?`.
fn in_declaration(b: u8) -> Stage
    ensures { Some result ≡ Scanning.step Stage.InDeclaration b }
{
    match b {
        b'?' => Stage::Question,
        _ => Stage::InDeclaration,
    }
}

// In a declaration, behind `?`.
fn after_question(b: u8) -> Stage
    ensures { Some result ≡ Scanning.step Stage.Question b }
{
    match b {
        b'>' => Stage::Done(Kind::Declaration),
        b'?' => Stage::Question,
        _ => Stage::InDeclaration,
    }
}

/// The form, where the mark is whole.
pub fn kind_done(stage: Stage) -> Option<Kind>
    ensures { result ≡ Scanning.kind_done stage }
{
    match stage {
        Stage::Done(kind) => Some(kind),
        _ => None,
    }
}
