//! Fields in a head, and what their parameters say.
ghost use Rattle.std.specs.Prelude.{[], ◌≡◌, ◌≤◌, ◌==◌, false, if◌then◌else◌, length, not};
ghost use Rattle.std.specs.List.{before_first, position_or_len};
ghost use Rattle.std.specs.Option.{option_copied};
ghost use Rattle.part_fields.specs.Fields.{after_front, field_of, first_said, is_blank, line, next, parameter_of, said, said_at, trimmed};

// Whether a byte is a space or a tab.
fn is_blank(byte: u8) -> bool
    ensures { result ≡ is_blank byte }
{
    byte == b' ' || byte == b'\t'
}

// Without ASCII white space around it.
fn trimmed(text: &[u8]) -> &[u8]
    ensures { result.now ≡ trimmed text.now }
{
    text.trim_ascii()
}

// What stands behind this front, whatever the case of its letters.
fn after_front<'a>(text: &'a [u8], front: &[u8]) -> Option<&'a [u8]>
    ensures { option_copied result ≡ after_front front.now text.now }
{
    let (begins, rest) = text.split_at_checked(front.len())?;
    if begins.eq_ignore_ascii_case(front) {
        return Some(rest);
    }
    None
}

// The same where white space may stand before it.
fn next<'a>(text: &'a [u8], front: &[u8]) -> Option<&'a [u8]>
    ensures { option_copied result ≡ next front.now text.now }
{
    after_front(text.trim_ascii_start(), front)
}

// How many bytes stand before the first such one.
fn len_before(text: &[u8], byte: u8) -> usize
    ensures value { result ≡ position_or_len (λ here. here == byte) text.now }
    ensures within { result ≤ length text.now }
{
    text.iter().take_while(|here| **here != byte).count()
}

// What stands before the first such byte, or all.
fn before(text: &[u8], byte: u8) -> &[u8]
    ensures { result.now ≡ before_first (λ here. here == byte) text.now }
{
    &text[..len_before(text, byte)]
}

// What is sought in a text.
#[derive(Clone, Copy)]
enum Sought {
    // The end of a line, which no blank continues.
    LineEnd,
    // A field of a name.
    Field,
    // A parameter of a name.
    Parameter,
}

impl Sought {
    // What stands there and behind it, or just behind it; in quotes there is no parameter.
    fn at<'a>(self, name: &[u8], quoted: bool, text: &'a [u8]) -> Option<&'a [u8]>
        ensures { option_copied result ≡ said_at self name.now quoted text.now }
    {
        match self {
            Sought::LineEnd => from_line_end(text),
            Sought::Field => after_front(after_front(after_front(text, b"\r\n")?, name)?, b":"),
            Sought::Parameter if quoted => None,
            Sought::Parameter => next(next(after_front(text, b";")?, name)?, b"="),
        }
    }
}

// From the end of a line on.
fn from_line_end(text: &[u8]) -> Option<&[u8]>
    ensures { option_copied result ≡ said_at Sought.LineEnd [] false text.now }
{
    if text.starts_with(b"\r\n") && !(text.len() > 2 && is_blank(text[2])) {
        return Some(text);
    }
    None
}

// What the first place says that says something of what is sought.
fn first_said<'a>(text: &'a [u8], sought: Sought, name: &[u8]) -> Option<&'a [u8]>
    ensures { option_copied result ≡ first_said sought name.now false text.now }
{
    let mut rest = text;
    let mut quoted = false;
    while let [byte, behind @ ..] = rest {
        match sought.at(name, quoted, rest) {
            Some(said) => return Some(said),
            None => quoted = is_quoted_behind(quoted, *byte),
        }
        rest = behind;
    }
    None
}

// Whether what follows a byte is in quotes.
fn is_quoted_behind(quoted: bool, byte: u8) -> bool
    ensures { result ≡ (if byte == 34 then not quoted else quoted) }
{
    if byte == b'"' { !quoted } else { quoted }
}

// Up to the end of the line.
fn line(text: &[u8]) -> &[u8]
    ensures { result.now ≡ line text.now }
{
    match first_said(text, Sought::LineEnd, b"") {
        Some(rest) => &text[..text.len().saturating_sub(rest.len())],
        None => text,
    }
}

/// The value of the first field of this name, whatever the case of its letters, in a head, which begins with the end of the line
/// before its first field, as `multipart` lends one. A value that goes on in further lines has their ends in it.
///
/// ```
/// let head = b"\r\nContent-Disposition: form-data; name=\"a\"".as_slice();
/// let said = field(head, b"content-disposition").unwrap_or(b"");
/// assert!(rt; parameter(said, b"name") == Some(b"a".as_slice()));
/// ```
pub fn field<'a>(head: &'a [u8], name: &[u8]) -> Option<&'a [u8]>
    ensures value { option_copied result ≡ field_of head.now name.now }
{
    let value = first_said(head, Sought::Field, name)?;
    Some(trimmed(line(value)))
}

// What is said behind `=`: what stands in quotes, as it stands, or else up to `;`.
fn said(text: &[u8]) -> &[u8]
    ensures { result.now ≡ said text.now }
{
    match next(text, b"\"") {
        Some(quoted) => before(quoted, b'"'),
        None => trimmed(before(text, b';')),
    }
}

/// What the first parameter of this name in a field's value says, whatever the case of its letters, as `name` of `form-data;
/// name="a"`: what stands between its quotes, as it stands, or up to the next `;`, without white space around it. In quotes a
/// backslash is a byte as another, as in web forms.
pub fn parameter<'a>(value: &'a [u8], name: &[u8]) -> Option<&'a [u8]>
    ensures value { option_copied result ≡ parameter_of value.now name.now }
{
    Some(said(first_said(value, Sought::Parameter, name)?))
}
