//! The verdict on a message.

ghost use Rattle.std.specs.Prelude.{◌≡◌, IfOk};
ghost use Rattle.http_api.specs.Judging.{first_made};
ghost use Rattle.form_urlencoded.specs.Form.{split_once};
ghost use Rattle.http_api.specs.Verdict.{IsVerdictOn, claim_judgements, head_judgements};

use crate::asked::verdict_for;
use crate::head::Head;
use crate::judgement::Judgement;
use crate::resource::{Resource, resource_of};
use crate::route::Routes;
use desk_io::NoMemory;
use desk_types::Call;
use memchr::memchr;
use query_words::Text;
use std::alloc::Global;

/// What a message comes to.
#[derive(Debug, Drop)]
pub enum Verdict {
    /// It asks for this call.
    Asks(Call),
    /// It asks for none: this judgement holds, and none before it.
    Fails(Judgement),
}

/// The verdict on a head with its body, by the key of the host.
pub fn judge(
    alloc: Global,
    routes: &Routes,
    host_key: &Text,
    head: &Head,
    body: &[u8],
) -> Result<Verdict, NoMemory>
    ensures { IfOk result (λ verdict. IsVerdictOn host_key.now head.now body.now verdict) }
{
    if let Some(judgement) = judge_head(head) {
        return Ok(Verdict::Fails(judgement));
    }
    let (path, query) = split_target(head.target());
    let Some(resource) = resource_of(routes, path) else {
        return Ok(Verdict::Fails(Judgement::NoRoute));
    };
    if let Some(judgement) = judge_claim(head, &resource, host_key) {
        return Ok(Verdict::Fails(judgement));
    }
    verdict_for(alloc, resource, head.key(), query, body)
}

/// What holds of a head whatever it asks for.
#[tactic(auto, unfolding(crate::specs::Judging::first_made))]
fn judge_head(head: &Head) -> Option<Judgement>
    ensures { result ≡ first_made (head_judgements head.now) }
{
    if !head.is_host_right() {
        return Some(Judgement::BadHost);
    }
    if head.has("content-encoding") {
        return Some(Judgement::BadEncoding);
    }
    if !matches!(head.target(), [b'/', ..]) {
        return Some(Judgement::BadTarget);
    }
    None
}

/// What holds of the method and the key of a head by what its target names.
#[tactic(auto, unfolding(crate::specs::Judging::first_made))]
fn judge_claim(head: &Head, resource: &Resource, host_key: &Text) -> Option<Judgement>
    ensures { result ≡ first_made (claim_judgements host_key.now head.now resource.now) }
{
    let method = resource.method();
    if head.method() != method.as_str().as_bytes() {
        return Some(Judgement::BadMethod(method));
    }
    if resource.is_of_host() && head.key() != host_key.as_str() {
        return Some(Judgement::HostKey);
    }
    None
}

/// The path of a target, and the query behind its first question mark.
fn split_target(target: &[u8]) -> (&[u8], &[u8])
    ensures { (result.0.now, result.1.now) ≡ split_once 63 target.now }
{
    match memchr(b'?', target) {
        Some(place) => (&target[..place], &target[place + 1..]),
        None => (target, b""),
    }
}
