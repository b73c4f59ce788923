//! What follows of messages.

ghost use Rattle.std.specs.Prelude.{◌≡◌, ℕ, List};
ghost use Rattle.http_api.specs.Message.{Message};
ghost use Rattle.http_api.specs.Verdict.{IsVerdict};
ghost use Rattle.http_api.specs.declared.verdict.Verdict.{Verdict};

use csv_import::a_file_tells_one_thing;

/// A law, with nothing to run: a message has one verdict, by the key of the host.
pub fn a_message_has_one_verdict()
    ensures { (host_key : List ℕ) (message : Message) (verdict other : Verdict)
        → IsVerdict host_key message verdict → IsVerdict host_key message other → verdict ≡ other }
{
    a_file_tells_one_thing();
}
