//! A head as it was read, and its fields by their names.

ghost use Rattle.std.specs.Prelude.{◌≡◌, ◌<◌, ℕ, List, [], ◌∷◌, ◌++◌, length, slice_get, if◌then◌else◌, Some, IfSome, option_map};
ghost use Rattle.std.specs.Str.{is_utf8, str_eq_ignore_ascii_case};
ghost use Rattle.httparse.specs.Spans.{IsRequestWithin, IsHeaderWithin, header_bytes};
ghost use Rattle.http_api.specs.Fields.{values_of, has_field};
ghost use Rattle.http_api.specs.HeadAt.{head_at};
ghost use Rattle.http_api.specs.HeadFound.{IsFound};
ghost use Rattle.http_api.specs.Judging.{is_host_right as has_right_host};
ghost use Rattle.http_api.specs.Verdict.{key_of};

use httparse::spans::{HeaderSpan, RequestSpans};
use std::marker::Model;
use std::str;

/// A head by where its parts stand in bytes, seen as its method, its target, its version and its fields.
#[derive(Drop)]
pub struct Head<'a> {
    bytes: &'a [u8],
    parts: RequestSpans,
    fields: &'a [HeaderSpan],
}

impl<'a> Model for Head<'a> {
    ghost use Rattle.httparse.specs.Spans.{IsRequestWithin};
    ghost use Rattle.http_api.specs.HeadAt.{head_at};
    ghost use Rattle.http_api.specs.HeadValue.{HeadValue};

    ghost Value = { HeadValue };

    ghost view = { λ h. head_at h.bytes.now h.parts h.fields.now };

    ghost invariant = { λ h. IsRequestWithin h.bytes.now h.fields.now h.parts };
}

/// The fields of a name.
#[derive(Clone, Copy, Debug)]
pub enum Found<'a> {
    /// No field has it.
    Absent,
    /// One field has it, with this value.
    Once(&'a [u8]),
    /// More fields than one have it, the first with this value.
    Repeated(&'a [u8]),
}

impl<'a> Head<'a> {
    /// A head whose parts stand in these bytes.
    pub fn new(bytes: &'a [u8], parts: RequestSpans, fields: &'a [HeaderSpan]) -> Head<'a>
        requires { IsRequestWithin bytes.now fields.now parts }
        ensures { result ≡ head_at bytes.now parts fields.now }
    {
        Head {
            bytes,
            parts,
            fields,
        }
    }

    /// The method.
    pub fn method(&self) -> &'a [u8]
        ensures { result.now ≡ self.now.method }
    {
        self.parts.method.of(self.bytes)
    }

    /// The target.
    pub fn target(&self) -> &'a [u8]
        ensures { result.now ≡ self.now.target }
    {
        self.parts.path.of(self.bytes)
    }

    /// The minor number of the version.
    pub fn minor(&self) -> u8
        ensures { result ≡ self.now.minor }
    {
        self.parts.version
    }

    /// How many fields there are.
    pub fn field_count(&self) -> usize
        ensures { result ≡ length self.now.fields }
    {
        self.parts.headers
    }

    /// The name and the value of the field at a place, from 0 on.
    pub fn field(&self, place: usize) -> (&'a [u8], &'a [u8])
        requires { place < length self.now.fields }
        ensures { slice_get self.now.fields place ≡ Some (result.0.now, result.1.now) }
    {
        field_at(self.bytes, self.fields, place)
    }

    /// The fields of a name, in any ASCII case.
    pub fn find(&self, name: &str) -> Found<'a>
        ensures { IsFound (values_of name.now self.now) result }
    {
        let mut found = Found::Absent;
        for place in 0..self.field_count() {
            found = with_field(found, name, self.field(place));
        }
        found
    }

    /// Whether a field has the name, in any ASCII case.
    pub fn has(&self, name: &str) -> bool
        ensures { result ≡ has_field name.now self.now }
    {
        !matches!(self.find(name), Found::Absent)
    }

    /// Whether there is one Host, or none under an older version than HTTP/1.1.
    pub fn is_host_right(&self) -> bool
        ensures { result ≡ has_right_host self.now }
    {
        match self.find("host") {
            Found::Absent => self.minor() == 0,
            Found::Once(_) => true,
            Found::Repeated(_) => false,
        }
    }

    /// The key: that of the first Desk-Key field, empty where there is none or it is not UTF-8.
    pub fn key(&self) -> &'a str
        ensures { result.now ≡ key_of self.now }
    {
        match self.find("desk-key") {
            Found::Absent => "",
            Found::Once(value) | Found::Repeated(value) => text_of(value),
        }
    }
}

/// The text that bytes are, or no text where they are not UTF-8.
fn text_of(bytes: &[u8]) -> &str
    ensures { result.now ≡ (if is_utf8 bytes.now then bytes.now else []) }
{
    str::from_utf8(bytes).unwrap_or("")
}

/// The name and the value that the spans at a place cover.
fn field_at<'a>(bytes: &'a [u8], fields: &[HeaderSpan], place: usize) -> (&'a [u8], &'a [u8])
    requires there { place < length fields.now }
    requires within { IfSome (slice_get fields.now place) (IsHeaderWithin (length bytes.now)) }
    ensures { option_map (header_bytes bytes.now) (slice_get fields.now place)
        ≡ Some (result.0.now, result.1.now) }
{
    let field = fields[place];
    (field.name.of(bytes), field.value.of(bytes))
}

/// What is found of a name with one field more, a name and a value.
fn with_field<'a>(found: Found<'a>, name: &str, field: (&[u8], &'a [u8])) -> Found<'a>
    ensures { (values : List (List ℕ)) → IsFound values found.entry → IsFound (values
        ++ (if str_eq_ignore_ascii_case field.entry.0.now name.now then field.entry.1.now ∷ [] else [])) result }
{
    let (named, value) = field;
    if named.eq_ignore_ascii_case(name.as_bytes()) {
        with_value(found, value)
    } else {
        found
    }
}

/// What is found with one value more.
fn with_value<'a>(found: Found<'a>, value: &'a [u8]) -> Found<'a>
    ensures { (values : List (List ℕ)) → IsFound values found.entry → IsFound (values ++ value.now ∷ []) result }
{
    match found {
        Found::Absent => Found::Once(value),
        Found::Once(first) => Found::Repeated(first),
        Found::Repeated(_) => found,
    }
}
