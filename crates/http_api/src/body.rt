//! The members of a body of JSON.

ghost use Rattle.std.specs.Prelude.{◌≡◌, IfOk, option_map};
ghost use Rattle.serde_json.specs.View.{view};
ghost use Rattle.http_api.specs.Asked.{json_of, member as member_told, number_member, text_member, flag_member, part_asked};
ghost use Rattle.http_api.specs.BodyTold.{told_of};

use desk_io::NoMemory;
use desk_types::Part;
use serde_json::Value;
use std::alloc::{AllocError, Global};

/// What a body tells, where it is JSON.
#[derive(Drop)]
pub struct Body {
    value: Option<Value>,
}

impl Body {
    /// Reads a body.
    pub fn read(alloc: Global, bytes: &[u8]) -> Result<Body, NoMemory>
        ensures { IfOk result (λ body. told_of body ≡ json_of bytes.now) }
    {
        match Value::from_slice(alloc, bytes) {
            Ok(value) => Ok(Body { value: Some(value) }),
            Err(error) if error.is_memory() => Err(AllocError),
            Err(_) => Ok(Body { value: None }),
        }
    }

    /// The number of a member: digits alone, below 2^64.
    pub fn number(&self, name: &str) -> Option<u64>
        ensures { result ≡ number_member name.now (told_of self.now) }
    {
        self.member(name)?.as_u64()
    }

    /// The text of a member.
    pub fn text(&self, name: &str) -> Option<&str>
        ensures { option_map (λ text. text.now) result ≡ text_member name.now (told_of self.now) }
    {
        self.member(name)?.as_str()
    }

    /// The truth value of a member.
    pub fn flag(&self, name: &str) -> Option<bool>
        ensures { result ≡ flag_member name.now (told_of self.now) }
    {
        self.member(name)?.as_bool()
    }

    /// The part of an account that is paused: a campaign or a line, where not both are named.
    pub fn part(&self) -> Option<Part>
        ensures { result ≡ part_asked (told_of self.now) }
    {
        match (self.member("campaign"), self.member("line")) {
            (Some(campaign), None) => Some(Part::OfCampaign(campaign.as_u64()?)),
            (None, Some(line)) => Some(Part::OfLine(line.as_u64()?)),
            _ => None,
        }
    }

    /// The member of a name; of one that stands more than once, the last.
    fn member(&self, name: &str) -> Option<&Value>
        ensures { option_map (λ value. view value.now) result ≡ member_told name.now (told_of self.now) }
    {
        self.value.as_ref()?.get(name)
    }
}
